//! What a poll makes of an operator's inputs.
ghost use Rattle.std.specs.Prelude.{◌≡◌, ◌≢◌, ◌≤◌, IfErr, IfSome, length};
ghost use Rattle.mit_files.specs.Files.{FileMap};
ghost use Rattle.mit_files.specs.Names.{IsLegal};
ghost use Rattle.mit_files.specs.Rows.{rows_of};
ghost use Rattle.mit_world.specs.Outside.{Rose};
ghost use Rattle.mit_shelf.specs.Shelf.{Agrees};
ghost use Rattle.mit_shelf.specs.Stops.{IfFolder};
ghost use Rattle.mit_engine.specs.Operators as spec;
ghost use Rattle.mit_engine.specs.Reads.{bag_of_rows, integers, read_bag};

use crate::thin::ThinStep;
use mit_bags::Bag;
use mit_ops::FaultKind;
use mit_rows::{ColType, MAX_COLUMNS};
use mit_shelf::{FetchFault, Name, RowsRefused, Shelf, Stop, parse_rows};
use mit_world::Folder;
use std::alloc::Global;

/// The bag that a statement makes of its inputs: a read that of its file, a union their sum, and a write its own input.
pub(crate) fn whole<F: Folder>(
    alloc: Global,
    shelf: &mut Shelf,
    step: &ThinStep,
    mut inputs: Vec<Bag>,
    folder: &mut F,
) -> Result<Bag, Stop<FaultKind>>
    requires { spec.IsPollReady step.now inputs.items }
    ensures bag { (files : FileMap) → Agrees shelf.new files → spec.PollGivesBag (spec.due_bag files step.now inputs.items) result }
    ensures grows { (files : FileMap) → Agrees shelf.new files → Agrees shelf.old files }
    ensures agrees { IfSome (F.files folder.old) (λ files. Agrees shelf.old files → Agrees shelf.new files) }
    ensures failed { IfErr result (λ stop. IfFolder stop (Rose (F.faults folder.old) (F.faults folder.new))) }
    ensures told { F.files folder.new ≡ F.files folder.old }
    ensures count { F.faults folder.old ≤ F.faults folder.new }
{
    match step {
        ThinStep::Read { name, columns, .. } => read(alloc, shelf, name, *columns, folder),
        ThinStep::Union { .. } => Ok(Bag::join_all(alloc, inputs)?),
        ThinStep::Write { .. } => Ok(inputs.swap_remove(0)),
    }
}

// Reads the file of this name as a bag.
fn read<F: Folder>(
    alloc: Global,
    shelf: &mut Shelf,
    name: &Name,
    columns: u8,
    folder: &mut F,
) -> Result<Bag, Stop<FaultKind>>
    requires legal { IsLegal name.now }
    requires few { columns ≤ MAX_COLUMNS }
    ensures bag { (files : FileMap) → Agrees shelf.new files → spec.PollGivesBag (read_bag files name.now (integers columns)) result }
    ensures grows { (files : FileMap) → Agrees shelf.new files → Agrees shelf.old files }
    ensures agrees { IfSome (F.files folder.old) (λ files. Agrees shelf.old files → Agrees shelf.new files) }
    ensures failed { IfErr result (λ stop. IfFolder stop (Rose (F.faults folder.old) (F.faults folder.new))) }
    ensures told { F.files folder.new ≡ F.files folder.old }
    ensures count { F.faults folder.old ≤ F.faults folder.new }
{
    match shelf.fetch(name.bytes(), folder) {
        Ok(place) => bag_of(alloc, shelf.file_at(place), columns),
        Err(Stop::Fault(FetchFault::BadName)) => Err(Stop::Fault(FaultKind::BadName)),
        Err(Stop::Fault(FetchFault::NoFile)) => Err(Stop::Fault(FaultKind::NoFile)),
        Err(Stop::Folder) => Err(Stop::Folder),
        Err(Stop::NoMemory) => Err(Stop::NoMemory),
    }
}

// The bag of a file's rows of so many integers.
fn bag_of(alloc: Global, bytes: &[u8], columns: u8) -> Result<Bag, Stop<FaultKind>>
    requires { columns ≤ MAX_COLUMNS }
    ensures bag { spec.PollGivesBag (bag_of_rows (rows_of bytes.now (integers columns))) result }
    ensures own { IfErr result (λ stop. stop ≢ Stop.Folder) }
{
    let types = [ColType::Int; MAX_COLUMNS];
    bag_with(alloc, bytes, &types[..usize::from(columns)])
}

// The bag of a file's rows with columns of these types.
fn bag_with(alloc: Global, bytes: &[u8], types: &[ColType]) -> Result<Bag, Stop<FaultKind>>
    requires { length types.now ≤ MAX_COLUMNS }
    ensures bag { spec.PollGivesBag (bag_of_rows (rows_of bytes.now types.now)) result }
    ensures own { IfErr result (λ stop. stop ≢ Stop.Folder) }
{
    match parse_rows(alloc, bytes, types) {
        Ok(rows) => match Bag::from_rows(rows) {
            Ok(bag) => Ok(bag),
            Err(_) => Err(Stop::NoMemory),
        },
        Err(RowsRefused::BadRow(number)) => Err(Stop::Fault(FaultKind::BadRow(number))),
        Err(RowsRefused::NoMemory) => Err(Stop::NoMemory),
    }
}
