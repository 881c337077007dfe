//! The first draws, with values worked out elsewhere.

use crate::Draws;
use std::test::Fail;

#[test]
fn first_draws(rt: HostRuntime) -> Result<(), Fail> {
    let mut draws = Draws::new();
    let drawn = [
        draws.below(1000),
        draws.below(1000),
        draws.below(7),
        draws.below(1 << 63),
    ];
    assert_eq!(rt; drawn, [774, 153, 1, 822_192_870]);
    Ok(())
}
