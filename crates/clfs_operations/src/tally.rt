// The sums of a trial: how many of its lines were refused, and how many were answered otherwise.
ghost use Rattle.std.specs.Prelude.{◌≡◌, ◌+◌, ◌-◌, ◌<◌, ◌^◌, []};
ghost use Rattle.clfs_operations.specs.Trial.{told_lsn, is_refusal, counted, tally_of};

use clfs_lsn::Lsn;
use clfs_model::Reply;

/// How many lines were answered.
#[derive(Clone, Copy, Debug)]
pub struct Tally {
    /// Those that were answered otherwise than by a refusal.
    pub answered: u32,
    /// Those that were refused.
    pub refused: u32,
}

fn is_refusal(reply: &Reply) -> bool
    ensures { result ≡ is_refusal reply.now }
{
    match reply {
        Reply::Refused(_) => true,
        _ => false,
    }
}

/// The LSN that a reply tells: that of a record or a restart area that was just written.
pub fn told_lsn(reply: &Reply) -> Option<Lsn>
    ensures { result ≡ told_lsn reply.now }
{
    match reply {
        Reply::Placed(lsn) => Some(*lsn),
        _ => None,
    }
}

impl Tally {
    /// No lines.
    pub fn new() -> Tally
        ensures { result ≡ tally_of [] }
    {
        Tally {
            answered: 0,
            refused: 0,
        }
    }

    /// One line more, which was answered so.
    pub fn counting(self, reply: &Reply) -> Tally
        requires { self.answered + self.refused < 2 ^ 32 - 1 }
        ensures { result ≡ counted self reply.now }
    {
        if is_refusal(reply) {
            Tally {
                answered: self.answered,
                refused: self.refused + 1,
            }
        } else {
            Tally {
                answered: self.answered + 1,
                refused: self.refused,
            }
        }
    }
}
