//! Lists of calls, with the answers that they get.
use acts::{Stop, ThenNext, ThenSeek};
use ops::{Or, Sub};
use pool::block::Block;
use questions::pile_calls::{InPile, PileWalk};
use questions::piles::{Hole, Node, Other};
use questions::set_walks::{Blocks, Indices};
use roll::code;
use runs::calls::{Contains, Insert, InsertBlock, Intersect, Remove, Unite, Used};
use runs::laws::{after_list, alike, next_call};
use runs::script::{Finish, Then};
use stored::{OLD_BLOCK, OLD_WORD};
use view::View;
use walks::block_iter::DataBlock;

#[test]
fn refused_for_memory(rt: HostRuntime) {
    let mut level1 = [OLD_BLOCK; 3];
    let mut words = [OLD_WORD; 4];
    let list = Then::new(
        Insert(5),
        Then::new(Insert(70), Then::new(Insert(5000), Finish)),
    );
    let (set, answers, refused) = next_call(&mut level1, &mut words, list, Insert(200));
    let (a, (b, (c, ()))) = answers;
    assert!(rt; code(a) == 0 && code(b) == 0 && code(c) == 0);
    assert_eq!(rt; code(refused), 4);
    assert_eq!(rt; set.used(), (2, 3));
}

#[test]
fn slots_again(rt: HostRuntime) {
    let mut level1 = [OLD_BLOCK; 2];
    let mut words = [OLD_WORD; 2];
    let list = Then::new(
        Insert(5),
        Then::new(
            Remove(5),
            Then::new(
                InsertBlock(4096, 3),
                Then::new(Contains(4097), Then::new(Used, Finish)),
            ),
        ),
    );
    let (set, answers) = after_list(&mut level1, &mut words, list);
    let (_, (was, (put, (has, (used, ()))))) = answers;
    assert_eq!(rt; was, Ok(true));
    assert!(rt; code(put) == 0 && has);
    assert_eq!(rt; used, (1, 1));
    assert!(rt; !set.contains(5));
}

#[test]
fn same_members(rt: HostRuntime) {
    let mut one = [OLD_BLOCK; 3];
    let mut words1 = [OLD_WORD; 4];
    let mut two = [OLD_BLOCK; 3];
    let mut words2 = [1u64; 4];
    let longer = Then::new(
        Insert(9000),
        Then::new(
            Remove(9000),
            Then::new(Insert(5000), Then::new(Insert(5), Finish)),
        ),
    );
    let shorter = Then::new(Insert(5), Then::new(Insert(5000), Finish));
    let acts = ThenNext(ThenSeek {
        to: 6,
        rest: ThenNext(ThenNext(Stop)),
    });
    let walk = Then::new(Indices(acts), Finish);
    let (a, b) = alike(
        &mut one,
        &mut words1,
        &mut two,
        &mut words2,
        longer,
        shorter,
        walk,
        walk,
    );
    assert_eq!(rt; a, ((Some(5), (Some(5000), (None, ()))), ()));
    assert_eq!(rt; b, ((Some(5), (Some(5000), (None, ()))), ()));
}

#[test]
fn merged_with_another(rt: HostRuntime) {
    let mut one = [OLD_BLOCK; 4];
    let mut words1 = [OLD_WORD; 5];
    let mut two = [OLD_BLOCK; 4];
    let mut words2 = [OLD_WORD; 5];
    let (x, _) = after_list(
        &mut one,
        &mut words1,
        Then::new(Insert(5), Then::new(Insert(70), Finish)),
    );
    let list = Then {
        first: Insert(5000),
        rest: Then {
            first: Unite(View::new(&x)),
            rest: Then {
                first: Remove(70),
                rest: Then {
                    first: Intersect(View::new(&x)),
                    rest: Finish,
                },
            },
        },
    };
    let (set, answers) = after_list(&mut two, &mut words2, list);
    let (put, (united, _)) = answers;
    assert!(rt; code(put) == 0 && code(united) == 0);
    assert!(rt; set.contains(5) && !set.contains(70) && !set.contains(5000));
    assert_eq!(rt; set.used(), (1, 1));
}

#[test]
fn set_on_both_sides(rt: HostRuntime) {
    let mut one = [OLD_BLOCK; 4];
    let mut words1 = [OLD_WORD; 5];
    let mut two = [OLD_BLOCK; 4];
    let mut words2 = [OLD_WORD; 5];
    let (x, _) = after_list(
        &mut one,
        &mut words1,
        Then::new(Insert(5), Then::new(Insert(70), Finish)),
    );
    // the set or x, less the set: what x has and the set lacks
    let pile = Node {
        op: Sub,
        left: Node {
            op: Or,
            left: Hole,
            right: Other(View::new(&x)),
        },
        right: Hole,
    };
    let walk = PileWalk {
        pile,
        acts: ThenNext(ThenNext(Stop)),
    };
    let list = Then::new(Insert(5), Then::new(Insert(9000), Finish));
    let (_, _, seen) = next_call(&mut two, &mut words2, list, walk);
    assert_eq!(rt; seen, (Some(70), (None, ())));
}

#[test]
fn a_question_in_a_list(rt: HostRuntime) {
    let mut level1 = [OLD_BLOCK; 4];
    let mut words = [OLD_WORD; 5];
    let pile = Node {
        op: Sub,
        left: Hole,
        right: Hole,
    };
    let list = Then {
        first: InsertBlock(128, 5),
        rest: Then {
            first: InPile { pile, index: 128 },
            rest: Then {
                first: Blocks(ThenNext(ThenNext(Stop))),
                rest: Finish,
            },
        },
    };
    let (_, answers) = after_list(&mut level1, &mut words, list);
    let (put, (has, ((block, (end, ())), ()))) = answers;
    assert!(rt; code(put) == 0 && !has);
    assert_eq!(rt;
        block,
        Some(DataBlock {
            start_index: 128,
            bit_block: 5
        })
    );
    assert!(rt; end.is_none());
}
