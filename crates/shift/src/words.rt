// The keywords of a shift file.
ghost use Rattle.shift.specs.Words.{Named};

use crate::Expected;

#[derive(Clone, Copy)]
pub enum Word {
    Pools,
    Machine,
    Mark,
    Block,
    Unmark,
    Ask,
    Cells,
    Shared,
    Lacking,
}

impl TryFrom<&[u8]> for Word {
    type Error = Expected;

    ghost try_from_gives = { λ field r. Named field.now r };

    // The keyword that a field spells.
    fn try_from(field: &[u8]) -> Result<Word, Expected> {
        match field {
            b"pools" => Ok(Word::Pools),
            b"machine" => Ok(Word::Machine),
            b"mark" => Ok(Word::Mark),
            b"block" => Ok(Word::Block),
            b"unmark" => Ok(Word::Unmark),
            b"ask" => Ok(Word::Ask),
            b"cells" => Ok(Word::Cells),
            b"shared" => Ok(Word::Shared),
            b"lacking" => Ok(Word::Lacking),
            _ => Err(Expected::Keyword),
        }
    }
}
