//! The lines of a saved shape, made one by one (`thin_repair`, `thin_shrink`).

ghost use Rattle.std.specs.Prelude.{◌≡◌, ◌∷◌, [], IfNone, IfSome};
ghost use Rattle.pd_texts.specs.ThinLine.{line_of};
ghost use Rattle.pd_restore.specs.ShapeLines.{told_devices, told_leaves};

use crate::lines::Giving;
use crate::saved_lines::{RunSpan, Span, map_line};
use pd_salvage::{SavedPiece, SavedShape};
use pd_texts::ThinLine;

/// The lines of the shared leaves: those of the runs of the last one that are still to come, and the leaves behind it.
#[derive(Clone, Copy)]
pub(crate) struct LeafLines {
    leaves: Span,
    runs: RunSpan,
}

impl LeafLines {
    ghost use Rattle.pd_restore.specs.ShapeLines.{leaf_lines};

    /// The next line, or none where all were made.
    fn next(&mut self, saved: &SavedShape) -> Option<ThinLine>
        ensures some { IfSome result (λ line. leaf_lines self.old saved.now ≡ line_of line ∷ leaf_lines self.new saved.now) }
        ensures none { IfNone result (leaf_lines self.old saved.now ≡ []) }
        ensures ended { IfNone result (leaf_lines self.new saved.now ≡ []) }
    {
        if let Some(run) = self.runs.next(saved.leaf_runs()) {
            return Some(map_line(&run));
        }
        let number = self.leaves.at as u64;
        match self.leaves.next(saved.leaves()) {
            Some(leaf) => {
                self.runs.left = leaf.runs;
                Some(ThinLine::Leaf {
                    number,
                    entries: leaf.entries,
                })
            }
            None => None,
        }
    }
}

/// The lines of the devices: those of the runs of the last piece of its own that are still to come, the pieces of its device
/// behind it, and the devices behind that.
#[derive(Clone, Copy)]
pub(crate) struct DeviceLines {
    devices: Span,
    pieces: Span,
    runs: RunSpan,
}

impl DeviceLines {
    ghost use Rattle.pd_restore.specs.ShapeLines.{device_lines};

    /// The next line, or none where all were made.
    fn next(&mut self, saved: &SavedShape) -> Option<ThinLine>
        ensures some { IfSome result (λ line. device_lines self.old saved.now ≡ line_of line ∷ device_lines self.new saved.now) }
        ensures none { IfNone result (device_lines self.old saved.now ≡ []) }
    {
        'pieces: loop {
            if let Some(run) = self.runs.next(saved.runs()) {
                return Some(map_line(&run));
            }
            match self.pieces.next(saved.pieces()) {
                Some(piece) => match piece.piece() {
                    SavedPiece::Own(runs) => self.runs.left = runs as usize,
                    SavedPiece::Shared(number) => {
                        return Some(ThinLine::UseLeaf {
                            number: number as u64,
                        });
                    }
                },
                None => return self.next_device(saved),
            }
        }
    }

    /// The line of a device whose pieces and runs begin here.
    fn next_device(&mut self, saved: &SavedShape) -> Option<ThinLine>
        requires pieces { self.old.pieces.left ≡ 0 }
        requires runs { self.old.runs.left ≡ 0 }
        ensures some { IfSome result (λ line. device_lines self.old saved.now ≡ line_of line ∷ device_lines self.new saved.now) }
        ensures none { IfNone result (device_lines self.old saved.now ≡ []) }
    {
        match self.devices.next(saved.devices()) {
            Some(next) => {
                self.pieces.left = next.pieces;
                Some(ThinLine::Device {
                    id: next.id,
                    details: next.details,
                })
            }
            None => None,
        }
    }
}

/// The lines of a saved shape's text that stand between its pool line and its last one. They take no more memory.
#[derive(Drop)]
pub(crate) struct ShapeLines {
    saved: SavedShape,
    leaves: LeafLines,
    devices: DeviceLines,
}

impl ShapeLines {
    ghost use Rattle.std.specs.Prelude.{◌++◌};
    ghost use Rattle.pd_restore.specs.ShapeLines.{lines_left};

    /// All of them.
    pub(crate) fn new(saved: SavedShape) -> ShapeLines
        ensures { lines_left result ≡ told_leaves 0 saved.leaves saved.leaf_runs ++ told_devices saved.devices saved.pieces saved.runs }
    {
        let leaves = all_of(saved.leaves().len());
        let leaf_runs = RunSpan::none_of(saved.leaf_runs());
        let devices = all_of(saved.devices().len());
        let runs = RunSpan::none_of(saved.runs());
        ShapeLines {
            saved,
            leaves: LeafLines {
                leaves,
                runs: leaf_runs,
            },
            devices: DeviceLines {
                devices,
                pieces: all_of(0),
                runs,
            },
        }
    }
}

impl Giving for ShapeLines {
    ghost use Rattle.pd_restore.specs.ShapeLines.{lines_left};

    ghost coming = { lines_left };

    fn next(&mut self) -> Option<ThinLine> {
        match self.leaves.next(&self.saved) {
            Some(line) => Some(line),
            None => self.devices.next(&self.saved),
        }
    }
}

/// The first ones, so many.
fn all_of(number: usize) -> Span
    ensures at { result.at ≡ 0 }
    ensures left { result.left ≡ number }
{
    Span {
        at: 0,
        left: number,
    }
}
