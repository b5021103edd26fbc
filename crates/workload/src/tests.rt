//! Scripts whose lines are known.

ghost use Rattle.std.specs.Prelude.{◌<◌, ◌^◌};

use crate::Generator;
use graph_model::NoMemory;
use std::alloc::Global;
use std::process::Abort;

/// The whole script as one text.
fn script(alloc: Global, lines: u64, number: u32) -> Result<Vec<u8>, NoMemory>
    requires { number < 2 ^ 31 }
{
    let mut text = Vec::new(alloc);
    let mut generator = Generator::new(alloc, lines, number);
    for _ in 0..lines.saturating_add(1) {
        match generator.next()? {
            Some(line) => text.extend_from_slice(line.as_slice())?,
            None => break,
        }
    }
    Ok(text)
}

fn expect(rt: &impl Abort, text: &[u8], wanted: &[u8]) {
    assert_eq!(rt; text, wanted);
}

#[test]
fn scripts_are_known(rt: HostRuntime) -> Result<(), std::test::Fail> {
    let alloc = rt.alloc();
    expect(
        &rt,
        &script(alloc, 3, 0)?,
        b"type Item int:rank text:label ref:next lazy:far refs:all\nnew n0 Item\nroot n0\n",
    );
    expect(
        &rt,
        &script(alloc, 7, 7)?,
        b"type Item int:rank text:label ref:next lazy:far refs:all\nnew n0 Item\nroot n0\nstore root\nnew n14 Item\ncollect\nexport\n",
    );
    expect(&rt, &script(alloc, 0, 7)?, b"");
    Ok(())
}
