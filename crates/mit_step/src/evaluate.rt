//! The bag that a statement's operator gives over the bags of its arguments.
ghost use Rattle.std.specs.Prelude.{◌≡◌, ◌≢◌, Ok, Err, List, Some, false, true, ◌<◌, ◌≤◌, [], ◌∷◌, All, get_or, length, map, option_map, IfErr, IfOk, IsSome, MatchResult};
ghost use Rattle.mit_rows.specs.Bags.{RowOf};
ghost use Rattle.mit_rows.specs.declared.value.Value.{Value as OneValue};
ghost use Rattle.mit_files.specs.Files.{FileMap};
ghost use Rattle.mit_world.specs.Outside.{Rose};
ghost use Rattle.mit_shelf.specs.Shelf.{Agrees};
ghost use Rattle.mit_shelf.specs.Stops.{IfFolder};
ghost use Rattle.mit_expr.specs.Types.{type_in, type_of_value};
ghost use Rattle.mit_expr.specs.Values.{ValueOrFault, gives, value_in};
ghost use Rattle.mit_eval.specs.Evaluated.{Evaluates};
ghost use Rattle.mit_ops.specs.Answers.{at_row, settled};
ghost use Rattle.mit_ops.specs.EachRow.{given};
ghost use Rattle.mit_ops.specs.Kinds.{kind_of};
ghost use Rattle.mit_ops.specs.Operators.{captured, file_rows, legal_in, name_written, read_rows, whole, written};
ghost use Rattle.mit_apply.specs.Stops.{Gives};
ghost use Rattle.mit_script.specs.Trees.{is_write};
ghost use Rattle.mit_step.specs.Running.{Asks, GivesBag, NamedBy, StopsAs};
ghost use Rattle.mit_step.specs.Typing.{Argued, IsMade, IsValue, inputs_in, stored_bag};

use crate::loose::Loose;
use crate::store::{Store, shared};
use crate::whole::{WholeStop, whole_loose};
use mit_apply::OpStop;
use mit_bags::laws::bags_are_sorted_lists;
use mit_eval::{EvalFault, eval};
use mit_expr::Expr;
use mit_op_laws::laws::{files_law, fitting_law, typing_law};
use mit_ops::{FaultKind, OpSpec};
use mit_rows::{ColType, MAX_COLUMNS, Row, Text, Value};
use mit_shelf::laws::shelves_agree_with_their_files;
use mit_shelf::{FetchFault, RowsRefused, Shelf, Stop, legal_name, parse_rows};
use mit_world::Folder;
use std::alloc::{AllocError, Global};
use std::rc::Rc;

/// The bag of an operator that is no write.
pub(crate) fn evaluate<F: Folder>(
    alloc: Global,
    op: &OpSpec,
    args: &[u32],
    store: &Store,
    shelf: &mut Shelf,
    folder: &mut F,
) -> Result<Rc<Loose>, Stop<FaultKind>>
    requires other { is_write op.now ≡ false }
    requires argued { Argued op.now args.now store.now }
    ensures bag { (files : FileMap) → Agrees shelf.new files →
        MatchResult result (λ bag. whole op.now (inputs_in store.now args.now) files ≡ Ok bag.value)
        (StopsAs (whole op.now (inputs_in store.now args.now) files)) }
    ensures made { IfOk result (λ bag. IsMade op.now (inputs_in store.now args.now) bag.value) }
    ensures asks { Asks (F.files folder.old) (F.files folder.new) (F.faults folder.old) (F.faults folder.new) shelf.old shelf.new }
    ensures failed { IfErr result (λ stop. IfFolder stop (Rose (F.faults folder.old) (F.faults folder.new))) }
{
    typing_law();
    shelves_agree_with_their_files();
    of_kind(alloc, op, args, store, shelf, folder)
}

/// The same by the kind of the operator.
fn of_kind<F: Folder>(
    alloc: Global,
    op: &OpSpec,
    args: &[u32],
    store: &Store,
    shelf: &mut Shelf,
    folder: &mut F,
) -> Result<Rc<Loose>, Stop<FaultKind>>
    requires other { is_write op.now ≡ false }
    requires argued { Argued op.now args.now store.now }
    ensures bag { (files : FileMap) → Agrees shelf.new files →
        MatchResult result (λ bag. whole op.now (inputs_in store.now args.now) files ≡ Ok bag.value)
        (StopsAs (whole op.now (inputs_in store.now args.now) files)) }
    ensures asks { Asks (F.files folder.old) (F.files folder.new) (F.faults folder.old) (F.faults folder.new) shelf.old shelf.new }
    ensures failed { IfErr result (λ stop. IfFolder stop (Rose (F.faults folder.old) (F.faults folder.new))) }
{
    match op {
        OpSpec::Read { .. } => read(alloc, op, args, store, shelf, folder),
        OpSpec::Copy => same_bag(op, args, store),
        _ => over_bags(alloc, op, args, store),
    }
}

/// The bag of a copy, which is shared.
fn same_bag(op: &OpSpec, args: &[u32], store: &Store) -> Result<Rc<Loose>, Stop<FaultKind>>
    requires copy { kind_of op.now ≡ 15 }
    requires argued { Argued op.now args.now store.now }
    ensures bag { (files : FileMap) →
        MatchResult result (λ bag. whole op.now (inputs_in store.now args.now) files ≡ Ok bag.value)
        (StopsAs (whole op.now (inputs_in store.now args.now) files)) }
    ensures own { IfErr result (λ stop. stop ≢ Stop.Folder) }
{
    bags_are_sorted_lists();
    let OpSpec::Copy = op else {
        unreachable!();
    };
    let [variable, ..] = args else {
        unreachable!();
    };
    let bag = store.get(*variable);
    // a read, which tells the proof that the bag is in order
    let _rows = bag.rows();
    Ok(bag.clone()?)
}

/// The bag of a read: the rows of the file of its name.
fn read<F: Folder>(
    alloc: Global,
    op: &OpSpec,
    args: &[u32],
    store: &Store,
    shelf: &mut Shelf,
    folder: &mut F,
) -> Result<Rc<Loose>, Stop<FaultKind>>
    requires read { kind_of op.now ≡ 1 }
    requires argued { Argued op.now args.now store.now }
    ensures bag { (files : FileMap) → Agrees shelf.new files →
        MatchResult result (λ bag. whole op.now (inputs_in store.now args.now) files ≡ Ok bag.value)
        (StopsAs (whole op.now (inputs_in store.now args.now) files)) }
    ensures asks { Asks (F.files folder.old) (F.files folder.new) (F.faults folder.old) (F.faults folder.new) shelf.old shelf.new }
    ensures failed { IfErr result (λ stop. IfFolder stop (Rose (F.faults folder.old) (F.faults folder.new))) }
{
    fitting_law();
    match op {
        OpSpec::Read { name, types } => {
            let name = name_value(alloc, name, args, store)?;
            let bag = file_bag(alloc, &name, types.as_slice(), shelf, folder)?;
            Ok(shared(alloc, bag)?)
        }
        _ => unreachable!(),
    }
}

/// The text of a name, over the captured values of these variables.
fn name_value(
    alloc: Global,
    name: &Expr,
    args: &[u32],
    store: &Store,
) -> Result<Text, Stop<FaultKind>>
    requires there { All (λ variable. variable < length store.now) args.now }
    requires values { All IsValue (inputs_in store.now args.now) }
    requires typed { (captures : List OneValue) → captured (inputs_in store.now args.now) ≡ Some captures
        → type_in [] (map type_of_value captures) name.now ≡ Some ColType.Text }
    ensures { NamedBy (option_map (λ captures. value_in [] captures name.now)
        (captured (inputs_in store.now args.now))) result }
{
    let values = values_of(alloc, args, store)?;
    let nothing = Row::empty();
    match eval(alloc, name, &nothing, &values) {
        Ok(value) => Ok(text_of(value)),
        Err(fault) => Err(unnamed(fault)),
    }
}

/// The text that a value is.
fn text_of(value: Value) -> Text
    requires { type_of_value value ≡ ColType.Text }
    ensures { value ≡ Value.Text result }
{
    match value {
        Value::Text(text) => text,
        _ => unreachable!(),
    }
}

/// Why there is no name, where its expression has this fault.
fn unnamed(fault: EvalFault) -> Stop<FaultKind>
    ensures { (due : ValueOrFault) → Evaluates due (Err fault) → NamedBy (Some due) (Err result) }
{
    match OpStop::from(fault) {
        OpStop::Fault(kind) => Stop::Fault(kind),
        OpStop::NoMemory => Stop::NoMemory,
    }
}

/// The bag of the file of this name.
fn file_bag<F: Folder>(
    alloc: Global,
    name: &Text,
    types: &[ColType],
    shelf: &mut Shelf,
    folder: &mut F,
) -> Result<Loose, Stop<FaultKind>>
    requires few { length types.now ≤ MAX_COLUMNS }
    ensures bag { (files : FileMap) → Agrees shelf.new files →
        GivesBag (settled (read_rows files types.now (gives (Value.Text name.now)))) result }
    ensures asks { Asks (F.files folder.old) (F.files folder.new) (F.faults folder.old) (F.faults folder.new) shelf.old shelf.new }
    ensures failed { IfErr result (λ stop. IfFolder stop (Rose (F.faults folder.old) (F.faults folder.new))) }
{
    match shelf.fetch(name.bytes(), folder) {
        Ok(place) => bag_of_bytes(alloc, shelf.file_at(place), types),
        Err(Stop::Fault(FetchFault::BadName)) => Err(Stop::Fault(FaultKind::BadName)),
        Err(Stop::Fault(FetchFault::NoFile)) => Err(Stop::Fault(FaultKind::NoFile)),
        Err(Stop::Folder) => Err(Stop::Folder),
        Err(Stop::NoMemory) => Err(Stop::NoMemory),
    }
}

/// The bag of the rows of a file's bytes.
fn bag_of_bytes(alloc: Global, bytes: &[u8], types: &[ColType]) -> Result<Loose, Stop<FaultKind>>
    requires { length types.now ≤ MAX_COLUMNS }
    ensures bag { GivesBag (settled (file_rows types.now (Some bytes.now))) result }
    ensures own { IfErr result (λ stop. stop ≢ Stop.Folder) }
{
    match parse_rows(alloc, bytes, types) {
        Ok(rows) => Ok(Loose::from_rows(rows)),
        Err(RowsRefused::BadRow(number)) => Err(Stop::Fault(FaultKind::BadRow(number))),
        Err(RowsRefused::NoMemory) => Err(Stop::NoMemory),
    }
}

/// The bag of an operator that asks for no file.
fn over_bags(
    alloc: Global,
    op: &OpSpec,
    args: &[u32],
    store: &Store,
) -> Result<Rc<Loose>, Stop<FaultKind>>
    requires kind { (kind_of op.now ≢ 1) × (kind_of op.now ≢ 14) }
    requires argued { Argued op.now args.now store.now }
    ensures bag { (files : FileMap) →
        MatchResult result (λ bag. whole op.now (inputs_in store.now args.now) files ≡ Ok bag.value)
        (StopsAs (whole op.now (inputs_in store.now args.now) files)) }
    ensures own { IfErr result (λ stop. stop ≢ Stop.Folder) }
{
    files_law();
    let (first, captured) = args.split_at(usize::from(op.bag_inputs()));
    let bags = bags_of(alloc, first, store)?;
    let values = values_of(alloc, captured, store)?;
    match whole_loose(alloc, op, &bags, &values) {
        Ok(bag) => Ok(shared(alloc, bag)?),
        Err(WholeStop::Fault(fault)) => Err(Stop::Fault(fault.kind)),
        Err(WholeStop::NoMemory) => Err(Stop::NoMemory),
    }
}

/// The value of a scalar.
fn value_of(bag: &Loose) -> Result<Value, AllocError>
    requires { IsValue bag.now }
    ensures { IfOk result (λ value. bag.now ≡ (value ∷ []) ∷ []) }
{
    match bag.single() {
        Some(row) => match row.values() {
            [value] => value.copy(),
            _ => unreachable!(),
        },
        None => unreachable!(),
    }
}

/// Values that were captured, one for each of these variables.
fn values_of(alloc: Global, args: &[u32], store: &Store) -> Result<Vec<Value>, AllocError>
    requires there { All (λ variable. variable < length store.now) args.now }
    requires values { All IsValue (inputs_in store.now args.now) }
    ensures { IfOk result (λ values. map (λ value. (value ∷ []) ∷ []) values.items ≡ inputs_in store.now args.now) }
{
    let mut values = Vec::with_capacity(alloc, args.len())?;
    for variable in args {
        values.push(value_of(store.get(*variable))?)?;
    }
    Ok(values)
}

/// The bags of these variables.
fn bags_of(alloc: Global, args: &[u32], store: &Store) -> Result<Vec<Rc<Loose>>, AllocError>
    requires { All (λ variable. variable < length store.now) args.now }
    ensures { IfOk result (λ bags. map (λ bag. bag.value) bags.items ≡ inputs_in store.now args.now) }
{
    let mut bags = Vec::with_capacity(alloc, args.len())?;
    for variable in args {
        bags.push(store.get(*variable).clone()?)?;
    }
    Ok(bags)
}

/// The name under which a write writes, where its bag is its first argument.
pub(crate) fn name_of(
    alloc: Global,
    op: &OpSpec,
    args: &[u32],
    store: &Store,
) -> Result<Text, Stop<FaultKind>>
    requires write { is_write op.now ≡ true }
    requires argued { Argued op.now args.now store.now }
    ensures named { IfOk result (λ name. name_written op.now (inputs_in store.now args.now) ≡ Some name) }
    ensures bag { (files : FileMap) → MatchResult result
        (λ _. whole op.now (inputs_in store.now args.now) files ≡ Ok (stored_bag store.now (get_or args.now 0 0)))
        (StopsAs (whole op.now (inputs_in store.now args.now) files)) }
    ensures own { IfErr result (λ stop. stop ≢ Stop.Folder) }
{
    fitting_law();
    let OpSpec::Write { name } = op else {
        unreachable!();
    };
    let [written, captured @ ..] = args else {
        unreachable!();
    };
    // a read, which tells the proof that the bag is in order
    let _rows = store.get(*written).rows();
    let values = values_of(alloc, captured, store)?;
    written_name(alloc, name, &values)
}

/// The name that an expression gives over these captured values.
fn written_name(alloc: Global, name: &Expr, captures: &[Value]) -> Result<Text, Stop<FaultKind>>
    requires { type_in [] (map type_of_value captures.now) name.now ≡ Some ColType.Text }
    ensures named { IfOk result (λ text. legal_in (value_in [] captures.now name.now) ≡ Some text) }
    ensures bag { (rows : List RowOf) → MatchResult result
        (λ _. given (value_in [] captures.now name.now) (written rows) ≡ Ok rows)
        (StopsAs (at_row [] (given (value_in [] captures.now name.now) (written rows)))) }
    ensures own { IfErr result (λ stop. stop ≢ Stop.Folder) }
{
    match written_value(alloc, name, captures) {
        Ok(Value::Text(text)) => {
            if legal_name(text.bytes()) {
                Ok(text)
            } else {
                Err(Stop::Fault(FaultKind::BadName))
            }
        }
        Ok(_) => unreachable!(),
        Err(OpStop::Fault(kind)) => Err(Stop::Fault(kind)),
        Err(OpStop::NoMemory) => Err(Stop::NoMemory),
    }
}

/// The value of an expression over these captured values.
fn written_value(alloc: Global, name: &Expr, captures: &[Value]) -> Result<Value, OpStop>
    requires { IsSome (type_in [] (map type_of_value captures.now) name.now) }
    ensures value { Gives (value_in [] captures.now name.now) result }
    ensures typed { IfOk result (λ value.
        type_in [] (map type_of_value captures.now) name.now ≡ Some (type_of_value value)) }
{
    let nothing = Row::empty();
    Ok(eval(alloc, name, &nothing, captures)?)
}
