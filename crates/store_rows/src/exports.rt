//! An export by itself.

use session_lines::{Export, ExportStep};
use std::test::Fail;
use type_dictionary::Dictionary;

fn is_end(step: &ExportStep, text: &str) -> bool {
    match step {
        ExportStep::End(line) => line.as_slice() == text.as_bytes(),
        _ => false,
    }
}

#[test]
fn a_graph_without_a_root_has_no_lines(rt: HostRuntime) -> Result<(), Fail> {
    let types = Dictionary::new(rt.alloc());
    let mut export = Export::start(rt.alloc(), false);
    assert!(rt; is_end(&export.next(&types, None)?, "end 0\n"));
    Ok(())
}
