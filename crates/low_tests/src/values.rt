// Values put together.
use std::test::Fail;
use sv_num::{Bits, concat};

// The bits of the second value stand below those of the first, and the result is unsigned (IEEE
// 1364-2005, clauses 5.1.14 and 5.5.1).
#[test]
fn joins(rt: HostRuntime) -> Result<(), Fail> {
    let high = Bits::new(4, true, 0xa).ok_or("four bits")?;
    let low = Bits::new(8, true, 0xc5).ok_or("eight bits")?;
    let both = concat(high, low);
    assert!(rt; both == Bits::new(12, false, 0xac5).ok_or("twelve bits")?);
    Ok(())
}
