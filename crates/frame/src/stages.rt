// The order of frames.
ghost use Rattle.std.specs.Prelude.{◌≡◌};
ghost use Rattle.frame.specs.Stages.{role, next_stage, may_end};

use crate::HEADER_SIZE;
use attribute::{ATT_CODE_PAGE, ATT_RENDERING, ATT_VERSION, Attribute};
use source::{Reason, Refusal};

// The most attachments that a message can have.
pub const ATTACHMENT_LIMIT: u16 = 256;

// What may come next: the version, the code page, frames of the message, or frames of the attachment with that number.
#[derive(Clone, Copy)]
pub enum Stage {
    Version,
    CodePage,
    Message,
    Attachment(u16),
}

impl Stage {
    // The stage after a frame of the attribute, or the refusal of one that may not stand there.
    pub fn advance(&self, attribute: Attribute, place: usize) -> Result<Stage, Refusal>
        ensures { result ≡ next_stage self.now (role attribute) place }
    {
        match (*self, attribute.id) {
            (Stage::Version, ATT_VERSION) => Ok(Stage::CodePage),
            (Stage::CodePage, ATT_CODE_PAGE) => Ok(Stage::Message),
            (Stage::Message, ATT_RENDERING) => Ok(Stage::Attachment(1)),
            (Stage::Attachment(k), ATT_RENDERING) if k < ATTACHMENT_LIMIT => Ok(Stage::Attachment(
                k + 1,
            )),
            (Stage::Attachment(_), ATT_RENDERING) => Err(Refusal {
                reason: Reason::Limit,
                place,
            }),
            (_, ATT_VERSION | ATT_CODE_PAGE) => Err(Refusal {
                reason: Reason::Misplaced,
                place,
            }),
            (Stage::Message, _) if attribute.level == 1 => Ok(Stage::Message),
            (Stage::Attachment(k), _) if attribute.level != 1 => Ok(Stage::Attachment(k)),
            _ => Err(Refusal {
                reason: Reason::Misplaced,
                place,
            }),
        }
    }

    // A stream may end once the version and the code page have come.
    pub fn may_end(&self) -> bool
        ensures { result ≡ may_end self.now }
    {
        matches!(self, Stage::Message | Stage::Attachment(_))
    }
}

// Where a frame is read, and at which stage.
#[derive(Clone, Copy)]
pub struct Cursor {
    pub place: usize,
    pub stage: Stage,
}

impl Cursor {
    // At the first frame, behind the header.
    pub const FIRST: Cursor = Cursor {
        place: HEADER_SIZE,
        stage: Stage::Version,
    };
}
