//! Worked cases of combinations and walks.
ghost use Rattle.std.specs.Prelude.{◌<◌, length};

use bitset::BitSet;
use custom::{Band, Nor};
use operands::apply::Apply;
use operands::bitset_interface::{LevelMasks, LevelMasksIterExt, contains};
use ops::{And, BitSetOp, Or, Xor};
use pool::block::Block;
use view::View;
use walks::block_iter::{BlockIter, DataBlock};
use walks::index_iter::IndexIter;

// A set with these members.
fn set_of<'a>(level1: &'a mut [Block], words: &'a mut [u64], members: [usize; 3]) -> BitSet<'a>
    requires { (0 < length level1.old) × (0 < length words.old) }
{
    let mut s = BitSet::over(level1, words);
    for member in members {
        let _ = s.insert(member);
    }
    s
}

// Whether the constant is what the function answers.
fn constant_agrees<T: LevelMasks>(_set: &T) -> bool {
    T::TRUSTED == T::is_trusted()
}

#[test]
fn equal_sets_under_xor(rt: HostRuntime) {
    let mut blocks = [Block {
        mask: 1,
        slots: [1; 64],
    }; 2];
    let mut words = [9u64; 3];
    let s = set_of(&mut blocks, &mut words, [5, 70, 5]);
    let x = Apply::new(Xor, View::new(&s), View::new(&s));
    assert_eq!(rt; x.level1_mask(0), 3);
    assert!(rt; !contains(&x, 5) && !contains(&x, 262144));
    let mut walk = BlockIter::new(x);
    assert_eq!(rt;
        walk.next(),
        Some(DataBlock {
            start_index: 0,
            bit_block: 0
        })
    );
    assert_eq!(rt;
        walk.next(),
        Some(DataBlock {
            start_index: 64,
            bit_block: 0
        })
    );
    assert!(rt; walk.next().is_none());
    let mut indices = IndexIter::new(x);
    assert_eq!(rt; indices.next(), None);
}

#[test]
fn seeks(rt: HostRuntime) {
    let mut blocks = [Block {
        mask: 1,
        slots: [1; 64],
    }; 3];
    let mut words = [9u64; 4];
    let s = set_of(&mut blocks, &mut words, [5, 200, 5000]);
    let mut walk = IndexIter::new(View::new(&s));
    walk.move_to(200);
    assert_eq!(rt; walk.next(), Some(200));
    assert_eq!(rt; walk.next(), Some(5000));
    assert_eq!(rt; walk.next(), None);
    walk.move_to(201);
    assert_eq!(rt; walk.next(), Some(5000));
    walk.move_to(262144);
    assert_eq!(rt; walk.next(), None);
    walk.move_to(0);
    assert_eq!(rt; walk.next(), Some(5));
}

#[test]
fn constants(rt: HostRuntime) {
    let mut blocks = [Block {
        mask: 1,
        slots: [1; 64],
    }; 3];
    let mut words = [9u64; 4];
    let s = set_of(&mut blocks, &mut words, [5, 200, 5000]);
    let v = View::new(&s);
    let or = Apply::new(Or, v, v);
    let and = Apply::new(And, v, v);
    let band = Band { group: 3, word: 1 };
    assert!(rt; constant_agrees(&v) && constant_agrees(&band));
    assert!(rt; constant_agrees(&or) && constant_agrees(&and));
    assert!(rt; constant_agrees(&Apply::new(Or, or, and)));
    assert!(rt; constant_agrees(&Apply::new(Or, v, band)));
    assert!(rt; constant_agrees(&&v) && constant_agrees(&&band));
}

#[test]
fn a_users_own(rt: HostRuntime) {
    let band = Band { group: 3, word: 6 };
    let none = Apply::new(Nor, band, band);
    assert!(rt; contains(&band, 12289) && !contains(&band, 1));
    assert!(rt; !contains(&none, 12289) && contains(&none, 262143));
    assert!(rt; !contains(&none, 262144));
    assert!(rt; contains(&&none, 262143) && !contains(&&none, 262144));
    let mut walk = IndexIter::new(Apply::new(And, &band, &none));
    assert_eq!(rt; walk.next(), None);
    let mut rest = IndexIter::new(none);
    rest.move_to(12288);
    assert_eq!(rt; rest.next(), Some(12288));
    assert_eq!(rt; rest.next(), Some(12291));
}
