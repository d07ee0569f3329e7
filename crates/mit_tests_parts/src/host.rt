//! The folder, the outbox and the console of the machine.
use mit_world::*;
use std::fs;
use std::test::Fail;

#[test]
fn the_current_folder_tells_a_file_from_none(rt: HostRuntime) -> Result<(), Fail> {
    fs::write(&rt, "mitos-read", "text")?;
    let mut folder = HostFolder::new(rt.clone()?);
    let mut into = [1].to_vec(rt.alloc())?;
    assert_eq!(rt; folder.read("mitos-none", &mut into), Ok(false));
    assert_eq!(rt; folder.read(".", &mut into), Err(OutsideStop::Failed));
    assert_eq!(rt; into.as_slice(), [1].as_slice());
    assert_eq!(rt; folder.read("mitos-read", &mut into), Ok(true));
    assert_eq!(rt; into.as_slice(), b"\x01text".as_slice());
    fs::remove_file(&rt, "mitos-read")?;
    Ok(())
}

#[test]
fn a_published_folder_is_not_replaced(rt: HostRuntime) -> Result<(), Fail> {
    let _ = fs::remove_dir_all(&rt, "mitos-out");
    let _ = fs::remove_dir_all(&rt, "mitos-staged");
    fs::create_dir(&rt, "mitos-staged")?;
    fs::write(&rt, "mitos-staged/old", "old")?;
    let mut outbox = HostOutbox::new(rt.clone()?);
    assert_eq!(rt; outbox.stage("a", b"1"), Ok(()));
    assert_eq!(rt; outbox.stage("a", b"2"), Ok(()));
    assert_eq!(rt; outbox.publish(), Ok(()));
    assert_eq!(rt; fs::read_to_string(&rt, "mitos-out/a")?.as_str(), "2");
    assert!(rt; !fs::exists(&rt, "mitos-out/old")?);
    let mut second = HostOutbox::new(rt.clone()?);
    assert_eq!(rt; second.stage("b", b"3"), Ok(()));
    assert_eq!(rt; second.publish(), Err(OutsideStop::Failed));
    assert!(rt; !fs::exists(&rt, "mitos-out/b")?);
    fs::remove_dir_all(&rt, "mitos-out")?;
    fs::remove_dir_all(&rt, "mitos-staged")?;
    Ok(())
}

#[test]
fn the_console_takes_a_line(rt: HostRuntime) -> Result<(), Fail> {
    let mut console = HostConsole::new(rt.clone()?);
    assert_eq!(rt; console.put(b"a line\n"), Ok(()));
    Ok(())
}
