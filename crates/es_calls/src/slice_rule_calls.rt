//! The calls of `slice_rule`.
ghost use Rattle.std.specs.Prelude.{◌<◌, ◌≤◌};

use slice_rule::{Cover, Slice, has, part};
use std::process::Abort;
use std::test::Fail;

#[test]
fn slices_at_the_borders(rt: HostRuntime) -> Result<(), Fail> {
    for (id, max, is_one) in [
        (0, 2, true),
        (1023, 1024, true),
        (0, 1, false),
        (0, 0, false),
        (2, 2, false),
        (0, 1025, false),
    ] {
        assert_eq!(rt; Slice::make(id, max).is_ok(), is_one, "{id} of {max}");
    }
    Ok(())
}

#[test]
fn covers(rt: HostRuntime) -> Result<(), Fail> {
    let third = Slice::make(2, 3).ok().ok_or("a slice")?;
    assert!(rt; matches!(third.cover(0, 2), Cover::Part { j: 1, c: 2 }));
    assert!(rt; matches!(third.cover(1, 2), Cover::None));
    let second = Slice::make(1, 3).ok().ok_or("a slice")?;
    assert!(rt; matches!(second.cover(1, 2), Cover::All));
    assert_eq!(rt; part(3, 2, 0, 1), 2);
    Ok(())
}

// How many slices have a place, and whether one of them is its part.
fn holders(max: u32, shards: u32, shard: u32, rank: u32) -> Result<(u32, bool), Fail>
    requires some { 1 ≤ max }
    requires there { shard < shards }
{
    let mine = part(max, shards, shard, rank);
    let mut count = 0u32;
    let mut is_mine = false;
    for id in 0..max {
        let slice = Slice::make(id, max).ok().ok_or("a slice")?;
        if has(&slice.cover(shard, shards), rank) {
            count = count.saturating_add(1);
            is_mine = id == mine;
        }
    }
    Ok((count, is_mine))
}

#[test]
fn each_place_is_in_one_slice(rt: HostRuntime) -> Result<(), Fail> {
    for shards in 1..7 {
        for max in 2..15 {
            for shard in 0..shards {
                for rank in 0..20 {
                    let (count, is_mine) = holders(max, shards, shard, rank)?;
                    assert!(rt; count == 1 && is_mine, "{max} {shards} {shard} {rank}");
                }
            }
        }
    }
    Ok(())
}
