// Recipes as messages: read into a pool inside the call, then run.
ghost use Rattle.std.specs.Prelude.{◌≡◌};
ghost use Rattle.filter.specs.Call.{call};
ghost use Rattle.nuprikhen.specs.Recipes.{kind_of, named_kind, RunCalled, ReachCalled};
ghost use Rattle.nuprikhen.specs.Inner.Numbered.{Names};
ghost use Rattle.nuprikhen.specs.Inner.Recipes.{RanByKind, MessageTold, RunTold, ReachedByKind, ReachTold};
ghost use Rattle.sheet.specs.Contract.{lent, read_only};

use filter::{Kind, Recipe, Refused};
use message::MessageError;
use sheet::{Refusal, Size};

// The numbers of a message: sixteen steps of four tables of 256, so that no message which holds more can be accepted.
const POOL: usize = 16384;

// What a run of a message answers: docs/LAW.md's number or a message's, the index of the step, and for 10 the offset of the
// wrong number.
#[derive(Clone, Copy)]
#[repr(C)]
pub struct nup_run_answer {
    pub number: u8,
    pub step: u8,
    pub offset: u64,
}

// The same, with the yes or no on slot 0.
#[derive(Clone, Copy)]
#[repr(C)]
pub struct nup_reach_answer {
    pub number: u8,
    pub step: u8,
    pub reaches: u8,
    pub offset: u64,
}

// The kind of this number; test 5 of the number.
fn kind_of(kind: u8) -> Result<Kind, Refusal>
    ensures { Names (named_kind kind) (kind_of kind) result }
{
    Kind::try_from(u32::from(kind)).or(Err(Refusal::Range))
}

// The refusal of a message as C has it.
impl From<MessageError> for nup_run_answer {
    ghost from_gives = { λ refused told. MessageTold refused told.number told.step told.offset };

    fn from(refused: MessageError) -> nup_run_answer {
        nup_run_answer {
            number: refused.number(),
            step: refused.step(),
            offset: refused.offset(),
        }
    }
}

// The answer of a run as C has it.
impl From<Result<(), Refused>> for nup_run_answer {
    ghost from_gives = { λ answer told. RunTold answer told.number told.step told.offset };

    fn from(answer: Result<(), Refused>) -> nup_run_answer {
        match answer {
            Ok(()) => nup_run_answer {
                number: 0,
                step: 0,
                offset: 0,
            },
            Err(refused) => nup_run_answer {
                number: u8::from(refused.refusal),
                step: refused.step,
                offset: 0,
            },
        }
    }
}

// A run by a kind's number: one that names no kind is refused before any test.
fn run_by_kind(
    recipe: Recipe,
    kind: u8,
    pool: &[f32],
    size: Size,
    source: &[u8],
    slot1: &mut [u8],
    slot2: &mut [u8],
    slot3: &mut [u8],
    scratch: &mut [u8],
) -> Result<(), Refused>
    ensures { RanByKind kind (call recipe (kind_of kind) (read_only pool.now) size (read_only source.now) (lent slot1.old slot1.new) (lent slot2.old slot2.new) (lent slot3.old slot3.new) (lent scratch.old scratch.new)) result }
{
    filter::run(
        recipe,
        kind_of(kind)?,
        pool,
        size,
        source,
        slot1,
        slot2,
        slot3,
        scratch,
    )
}

// Runs a recipe that is given as a message; kind 0 is straight and 1 premultiplied.
#[unsafe(no_mangle)]
pub extern "C" fn nup_run(
    message: &[u8],
    kind: u8,
    width: u32,
    height: u32,
    source: &[u8],
    slot1: &mut [u8],
    slot2: &mut [u8],
    slot3: &mut [u8],
    scratch: &mut [u8],
) -> nup_run_answer
    ensures { RunCalled (read_only message.now) kind width height (read_only source.now) (lent slot1.old slot1.new) (lent slot2.old slot2.new) (lent slot3.old slot3.new) (lent scratch.old scratch.new) result }
{
    let mut pool = [0.0f32; POOL];
    let recipe = match message::read(message, &mut pool) {
        Ok(recipe) => recipe,
        Err(refused) => return nup_run_answer::from(refused),
    };
    let size = Size {
        width: width as usize,
        height: height as usize,
    };
    nup_run_answer::from(run_by_kind(
        recipe, kind, &pool, size, source, slot1, slot2, slot3, scratch,
    ))
}

// What a run by a kind's number is answered, and whether its result reaches slot 0.
fn reaches_by_kind(
    recipe: Recipe,
    kind: u8,
    pool: &[f32],
    size: Size,
    source: &[u8],
    slot1: &[u8],
    slot2: &[u8],
    slot3: &[u8],
    scratch: &[u8],
) -> Result<bool, Refused>
    ensures { ReachedByKind kind (call recipe (kind_of kind) (read_only pool.now) size (read_only source.now) (read_only slot1.now) (read_only slot2.now) (read_only slot3.now) (read_only scratch.now)) result }
{
    filter::reaches(
        recipe,
        kind_of(kind)?,
        pool,
        size,
        source,
        slot1,
        slot2,
        slot3,
        scratch,
    )
}

// The refusal of a message as C has it, with no yes.
impl From<MessageError> for nup_reach_answer {
    ghost from_gives = { λ refused told. MessageTold refused told.number told.step told.offset × (told.reaches ≡ 0) };

    fn from(refused: MessageError) -> nup_reach_answer {
        nup_reach_answer {
            number: refused.number(),
            step: refused.step(),
            reaches: 0,
            offset: refused.offset(),
        }
    }
}

// The answer of a run and the yes or no as C has them.
impl From<Result<bool, Refused>> for nup_reach_answer {
    ghost from_gives = { ReachTold };

    fn from(answer: Result<bool, Refused>) -> nup_reach_answer {
        match answer {
            Ok(yes) => nup_reach_answer {
                number: 0,
                step: 0,
                reaches: u8::from(yes),
                offset: 0,
            },
            Err(refused) => nup_reach_answer {
                number: u8::from(refused.refusal),
                step: refused.step,
                reaches: 0,
                offset: 0,
            },
        }
    }
}

// Whether some byte of the result of a recipe that is given as a message reaches slot 0; nothing is written.
#[unsafe(no_mangle)]
pub extern "C" fn nup_reaches(
    message: &[u8],
    kind: u8,
    width: u32,
    height: u32,
    source: &[u8],
    slot1: &[u8],
    slot2: &[u8],
    slot3: &[u8],
    scratch: &[u8],
) -> nup_reach_answer
    ensures { ReachCalled (read_only message.now) kind width height (read_only source.now) (read_only slot1.now) (read_only slot2.now) (read_only slot3.now) (read_only scratch.now) result }
{
    let mut pool = [0.0f32; POOL];
    let recipe = match message::read(message, &mut pool) {
        Ok(recipe) => recipe,
        Err(refused) => return nup_reach_answer::from(refused),
    };
    let size = Size {
        width: width as usize,
        height: height as usize,
    };
    nup_reach_answer::from(reaches_by_kind(
        recipe, kind, &pool, size, source, slot1, slot2, slot3, scratch,
    ))
}
