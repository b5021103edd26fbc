//! Lines as commands, and values.

use script_text::{
    Command, GivenInteger, LineFault, Target, bytes_in, integer_in, read_line, target_in,
};
use std::alloc::Global;
use std::test::Fail;
use type_desc::Text;

/// Whether the line adds `c`, or takes the reference with number 7 out.
fn is_list_line(alloc: Global, line: &str) -> Result<bool, LineFault> {
    match read_line(alloc, line.as_bytes())? {
        Command::AddTo { target, .. } => Ok(is_c(&target)),
        Command::CutFrom { index, .. } => Ok(index.below(8) == Some(7) && index.below(7).is_none()),
        _ => Ok(false),
    }
}

fn is_c(target: &Target) -> bool {
    match target {
        Target::Named(name) => name.as_str() == "c",
        Target::Null => false,
    }
}

#[test]
fn lines_are_commands(rt: HostRuntime) {
    let alloc = rt.alloc();
    for (line, want) in [
        ("add a l c", Ok(true)),
        ("add a l null", Ok(false)),
        ("cut a l 007", Ok(true)),
        ("forget", Ok(false)),
        ("set a x", Err(LineFault::BadLine { at: 7 })),
    ] {
        assert_eq!(rt; is_list_line(alloc, line), want, "{line}");
    }
}

#[test]
fn values_are_read(rt: HostRuntime) -> Result<(), Fail> {
    let alloc = rt.alloc();
    let number = Text::new(alloc, "-007")?;
    assert_eq!(rt; integer_in(&number), GivenInteger::Fits(-7));
    let digits = Text::new(alloc, "00ff")?;
    let bytes = bytes_in(alloc, &digits)?;
    assert!(rt; bytes.is_some_and(|bytes| bytes.as_slice() == [0, 255].as_slice()));
    let name = Text::new(alloc, "c")?;
    let target = target_in(alloc, &name)?;
    assert!(rt; target.is_some_and(|target| is_c(&target)));
    Ok(())
}
