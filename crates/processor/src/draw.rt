// The draw.
ghost use Rattle.std.specs.Prelude.{◌≡◌, Ok, Err, MatchResult};
ghost use Rattle.page.specs.Marks.{none_marked};
ghost use Rattle.processor.specs.Draws.{draw_outcome, draw_outcome_of, drawn};
ghost use Rattle.processor.specs.States.{with_marks};

use crate::state::Processor;
use board::bytes_of;
use command::answer::{DrawRefusal, Drawing};
use picture::redraw::redraw;
use shown::page::{Page, Scene};

// The state after a draw, with the answer.
#[derive(Clone, Copy)]
pub struct Drawn {
    pub processor: Processor,
    pub answer: Drawing,
}

// The marks after a draw.
#[tactic(auto, unfolding(basics::specs::Parts::joined))]
fn none_marked() -> [bool; 25]
    ensures { result ≡ none_marked }
{
    [false; 25]
}

// The marked rows are redrawn, unless 1, 5, 7, 6 or 8 refuses it, in this order. Memory and ROM are lent for as long
// as one another, as the scene wants it.
#[tactic(auto, unfolding(crate::specs::Draws::drawn, crate::specs::Draws::drawn_page))]
fn redrawn<'a>(p: Processor, memory: &'a [u8], rom: &'a [u8], picture: &mut [u8]) -> Drawing
    ensures { MatchResult result
        (λ rows. draw_outcome (with_marks p none_marked) picture.new (Ok rows) ≡ drawn p memory.now rom.now picture.old)
        (λ refusal. draw_outcome p picture.new (Err refusal) ≡ drawn p memory.now rom.now picture.old) }
{
    if memory.len() != bytes_of(p.blocks) {
        return Err(DrawRefusal::WrongMemory);
    }
    let shown = p.shown();
    if rom.len() != shown.rom_asked() {
        return Err(DrawRefusal::WrongRom);
    }
    let asked = shown.picture_asked().ok_or(DrawRefusal::NotBuilt)?;
    if picture.len() != asked {
        return Err(DrawRefusal::WrongPicture);
    }
    if shown.is_refused_8() {
        return Err(DrawRefusal::LowOrigin);
    }
    let scene = Scene {
        page: Page { memory, shown },
        rom,
    };
    Ok(redraw(picture, &scene, p.marks))
}

impl Processor {
    // The marked rows are redrawn and the marks cleared. A refusal hands the state back as it was.
    pub fn draw(mut self, memory: &[u8], rom: &[u8], picture: &mut [u8]) -> Drawn
        ensures { draw_outcome_of result picture.new ≡ drawn self memory.now rom.now picture.old }
    {
        let answer = redrawn(self, memory, rom, picture);
        if answer.is_ok() {
            self.marks = none_marked();
        }
        Drawn {
            processor: self,
            answer,
        }
    }
}
