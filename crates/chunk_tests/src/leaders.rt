ghost use Rattle.std.specs.Prelude.{◌≡◌, ◌<◌, ◌≤◌, length};
ghost use Rattle.sd_base.specs.Cutting.{RiseWithin};
ghost use Rattle.sd_base.specs.declared.limits.TheConstants.{MAX_INPUT};
ghost use Rattle.shard_plan.specs.FewNames.{front_name, length-front_name};
ghost use Rattle.shard_plan.specs.Shards.{AreShards};

use crate::drawn::draw;
use chunk_names::{LengthNamer, Namer, Sha256Namer, name_all};
use sd_base::OpenGate;
use shard_plan::{Items, ShardPlan, leaders_by_fold};
use std::alloc::Global;
use std::thread::Threads;

/// Names bytes by their number modulo 3 in the first byte, so that most chunks share a name, and
/// all names have the same key.
#[derive(Clone, Copy)]
struct FrontNamer;

impl Namer for FrontNamer {
    ghost name_of = { front_name };

    fn name(&self, bytes: &[u8]) -> [u8; 32] {
        let mut name = [0; 32];
        name[0] = (bytes.len() % 3) as u8;
        name
    }

    ghost whole = { length-front_name };
}

/// The first chunk with the bytes of chunk i.
fn first_same(items: &Items<'_>, i: u32) -> Option<u32>
    requires inside { i < length items.now.chunks }
{
    for j in 0..items.len() {
        if items.chunk(j) == items.chunk(i) {
            return Some(j);
        }
    }
    None
}

/// Whether the leader of each chunk is the first chunk that has its bytes.
fn are_first_same(items: &Items<'_>, leaders: &[u32]) -> bool {
    for i in 0..items.len() {
        if leaders.get(i as usize).copied() != first_same(items, i) {
            return false;
        }
    }
    leaders.len() == items.len() as usize
}

/// The leaders of items, found with this many shards.
fn leaders_of<H: Threads + Sync>(
    rt: &H,
    alloc: Global,
    items: &Items<'_>,
    shards: u32,
) -> Option<Vec<u32>>
    requires shards { AreShards shards }
{
    match ShardPlan::new(alloc, items, shards) {
        Ok(plan) => leaders_by_fold(rt, alloc, items, &plan).ok(),
        Err(_) => None,
    }
}

/// Whether the leader of each of so many items is the first that has its bytes.
fn items_have_first<H: Threads + Sync>(
    rt: &H,
    alloc: Global,
    items: &Items<'_>,
    shards: u32,
) -> bool
    requires shards { AreShards shards }
{
    match leaders_of(rt, alloc, items, shards) {
        Some(leaders) => are_first_same(items, leaders.as_slice()),
        None => false,
    }
}

/// Whether the leader of each chunk of a text is the first chunk that has its bytes.
fn leaders_are_first<N: Namer, H: Threads + Sync>(
    rt: &H,
    alloc: Global,
    namer: &N,
    text: &[u8],
    ends: &[u32],
    shards: u32,
) -> bool
    requires fits { length text.now ≤ MAX_INPUT }
    requires rise { RiseWithin 0 (length text.now) ends.now }
    requires shards { AreShards shards }
{
    match name_all(rt, alloc, namer, text, 0, ends, 2, 0, &OpenGate) {
        Ok(names) => {
            let items = Items::new(text, 0, ends, &names);
            items.len() as usize == ends.len() && items_have_first(rt, alloc, &items, shards)
        }
        Err(_) => false,
    }
}

/// Whether items 0 and 3 of four are the same, and items 0 and 2 only have the same name.
fn first_is_last(items: &Items<'_>) -> bool {
    items.len() == 4 && items.same(0, 3) && !items.same(0, 2) && items.name(0) == items.name(2)
}

/// Whether these are the leaders of items.
fn leaders_are<H: Threads + Sync>(rt: &H, alloc: Global, items: &Items<'_>, want: &[u32]) -> bool {
    match leaders_of(rt, alloc, items, 1) {
        Some(leaders) => leaders.as_slice() == want,
        None => false,
    }
}

/// Whether one shard has the region of four items.
fn one_region_has_all(alloc: Global, items: &Items<'_>) -> bool {
    match ShardPlan::new(alloc, items, 1) {
        Ok(plan) => plan.region(0) == (0, 8) && plan.words() == 8,
        Err(_) => false,
    }
}

/// Whether the chunks x, x, y and x have these leaders and the region of one shard, if their names
/// are their lengths.
fn letters_are_told_apart<H: Threads + Sync>(rt: &H, alloc: Global) -> bool {
    let text = b"xxyx".as_slice();
    let ends = [1, 2, 3, 4].as_slice();
    match name_all(rt, alloc, &LengthNamer, text, 0, ends, 1, 0, &OpenGate) {
        Ok(names) => {
            let items = Items::new(text, 0, ends, &names);
            first_is_last(&items)
                && leaders_are(rt, alloc, &items, &[0, 0, 2, 0])
                && one_region_has_all(alloc, &items)
        }
        Err(_) => false,
    }
}

#[test]
fn items_of_one_name_are_the_same_only_if_their_bytes_are(rt: HostRuntime) {
    assert!(rt; letters_are_told_apart(&rt, rt.alloc()));
}

static ENDS: [u32; 24] = [
    1, 2, 4, 5, 7, 10, 11, 12, 14, 16, 19, 20, 22, 23, 25, 28, 29, 30, 32, 34, 35, 37, 38, 40,
];

// Whether the leaders of a text are the first chunks that have their bytes, under three ways of
// naming.
fn all_leaders_are_first<H: Threads + Sync>(rt: &H, alloc: Global, text: &[u8; 40]) -> bool {
    leaders_are_first(rt, alloc, &Sha256Namer, text, &ENDS, 3)
        && leaders_are_first(rt, alloc, &FrontNamer, text, &ENDS, 3)
        && leaders_are_first(rt, alloc, &LengthNamer, text, &ENDS, 256)
}

// Whether it is so of no chunk, and of x, xx, y, xx, xxxx and y, whose names differ in the first
// byte, if at all.
fn few_leaders_are_first<H: Threads + Sync>(rt: &H, alloc: Global) -> bool {
    let (text, ends) = (b"xxxyxxxxxxy".as_slice(), [1, 3, 4, 6, 10, 11].as_slice());
    leaders_are_first(rt, alloc, &LengthNamer, b"", &[], 1)
        && leaders_are_first(rt, alloc, &FrontNamer, text, ends, 2)
}

#[test]
fn leaders_are_the_first_chunks_with_the_bytes_also_if_names_agree_in_their_last_eight_bytes(
    rt: HostRuntime,
) {
    assert!(rt; few_leaders_are_first(&rt, rt.alloc()));
    let mut state = 1;
    for _ in 0..20 {
        // a text of two byte values
        let mut text = [0; 40];
        state = draw(&mut text, state, 0x80);
        assert!(rt; all_leaders_are_first(&rt, rt.alloc(), &text));
    }
}

/// Whether a plan of three shards has these regions.
///
/// The first four bytes of the names are 0, 0x01000000 and 0x02000000: 0, 1 and 2 modulo 3.
fn is_plan_of_three(plan: &ShardPlan) -> bool
    requires shards { length plan.now ≡ 3 }
{
    plan.shard_of(&[1; 32]) == 1
        && plan.shard_of(&[2; 32]) == 2
        && plan.region(0) == (0, 4)
        && plan.region(1) == (4, 2)
        && plan.region(2) == (6, 2)
        && plan.words() == 8
}

fn regions_of_three_follow(alloc: Global, items: &Items<'_>) -> bool {
    match ShardPlan::new(alloc, items, 3) {
        Ok(plan) => is_plan_of_three(&plan),
        Err(_) => false,
    }
}

fn regions_follow<H: Threads + Sync>(rt: &H, alloc: Global) -> bool {
    let text = b"abbcccddd".as_slice();
    let ends = [1, 3, 6, 9].as_slice();
    match name_all(rt, alloc, &FrontNamer, text, 0, ends, 1, 0, &OpenGate) {
        Ok(names) => regions_of_three_follow(alloc, &Items::new(text, 0, ends, &names)),
        Err(_) => false,
    }
}

#[test]
fn regions_follow_one_another_with_two_words_an_item(rt: HostRuntime) {
    assert!(rt; regions_follow(&rt, rt.alloc()));
}
