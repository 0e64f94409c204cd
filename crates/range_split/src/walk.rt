// The walk over the cuts of a column, from piece to piece.
use crate::cut::Cut;
use crate::ends::is_at;
use crate::{End, Num, Range};

/// Where a walk over ascending cuts stands.
#[derive(Clone, Copy)]
pub struct Walk {
    /// Where the next piece begins.
    pub low: End,
    /// How many ranges have begun, and how many of them have ended. The counts have 128 bits, so that none can overflow.
    pub begun: u128,
    pub ended: u128,
}

impl Walk {
    ghost use Rattle.std.specs.Prelude.{◌≡◌, ◌<◌, ◌^◌, [], ◌∷◌, ◌-ℤ◌, pos, not, cond, nat_eq, IsTrue, int_lt};
    ghost use Rattle.std.specs.Option.{option_to_list};
    ghost use Rattle.match_model.specs.Numbers as model;
    ghost use Rattle.match_model.specs.Numbers.{is_from};
    ghost use Rattle.match_model.specs.Constructors.{least_held};
    ghost use Rattle.match_model.specs.Pieces.{is_at};
    ghost use Rattle.range_split.specs.Numbers.{num_value};
    ghost use Rattle.range_split.specs.Ends.{plain_end, ends_ascend};
    ghost use Rattle.range_split.specs.Ranges.{plain_range};
    ghost use Rattle.range_split.specs.Splits.{plain_pieces};
    ghost use Rattle.range_split.specs.Cuts.{cut_number};
    ghost use Rattle.range_split.specs.Walks.{Passes};
    ghost use Rattle.range_split.specs.Ranges.{range_of};

    /// The walk at the low end of the whole, of which so many ranges have the first numbers.
    pub fn new(whole: &Range, begun: u128) -> Walk
        ensures low { plain_end result.low ≡ (plain_range whole.now).low }
        ensures begun { result.begun ≡ begun }
        ensures ended { result.ended ≡ 0 }
    {
        Walk {
            low: whole.low(),
            begun,
            ended: 0,
        }
    }

    /// Passes the next cut: the piece before it with whether some range has it, or nothing where the walk stands there
    /// already.
    pub fn pass(&mut self, cut: &Cut) -> Option<(Range, bool)>
        requires from { IsTrue (is_from (plain_end self.old.low) (cut_number cut.now)) }
        requires begun { self.old.begun < 2 ^ 127 }
        requires ended { self.old.ended < 2 ^ 127 }
        ensures { Passes cut.now self.old self.new result }
    {
        let first = cut.first();
        let piece = self.piece_before(&first);
        self.low = End::At(first);
        if cut.begins {
            self.begun += 1;
        } else {
            self.ended += 1;
        }
        piece
    }

    // The piece from here to before the number, or nothing where there is none.
    fn piece_before(&self, first: &Num) -> Option<(Range, bool)>
        requires from { IsTrue (is_from (plain_end self.now.low) (num_value first.now)) }
        requires held { IsTrue (int_lt least_held (num_value first.now)) }
        ensures { plain_pieces (option_to_list result) ≡ cond (is_at (num_value first.now) (plain_end self.now.low)) []
            ((
              range_of (plain_end self.now.low) (model.At (num_value first.now -ℤ pos 1)),
              not (nat_eq self.now.begun self.now.ended),
            ) ∷ []) }
    {
        if is_at(&self.low, first) {
            None
        } else {
            let high = End::At(first.previous());
            Some((Range::between(&self.low, &high), self.begun != self.ended))
        }
    }

    /// The last piece, which ends where the whole does.
    pub fn last(&self, high: &End) -> (Range, bool)
        requires { IsTrue (ends_ascend (plain_end self.now.low) (plain_end high.now)) }
        ensures range { plain_range result.0 ≡ range_of (plain_end self.now.low) (plain_end high.now) }
        ensures flag { result.1 ≡ not (nat_eq self.now.begun self.now.ended) }
    {
        (Range::between(&self.low, high), self.begun != self.ended)
    }
}
