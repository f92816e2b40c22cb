// Runs over lists of requests.
ghost use Rattle.std.specs.Prelude.{◌≡◌, Bool, true, false, List, ◌++◌, All};
ghost use Rattle.clfs_model.specs.declared.reply.Happened.{Happened};
ghost use Rattle.clfs_model.specs.declared.reply.Reply.{Reply};
ghost use Rattle.clfs_model.specs.declared.state.State.{State};
ghost use Rattle.clfs_model.specs.declared.reply.Happened.TheVariants.{Fine};
ghost use Rattle.clfs_model.specs.declared.reply.Reply.TheVariants as replies;
ghost use Rattle.clfs_model.specs.Flush.{flushed, cut};
ghost use Rattle.clfs_model.specs.Step.{ReopenStep};
ghost use Rattle.clfs_model.specs.Storable.{IsStorable};
ghost use Rattle.clfs_model.specs.Run.{Request, Run, all_fine, replies_of, state_after};
ghost use Rattle.clfs_model.specs.Valid.{IsValid};
ghost use Rattle.clfs_laws.specs.Fronts.{RunsBy};
ghost use Rattle.clfs_laws.specs.Meets.{RequestMeets};

use clfs_model::calm_replies_are_a_run;
use clfs_space::space_laws;

/// Two runs join where the second begins at the state that the first reached, and a run over two lists of requests, one after the
/// other, is two runs.
pub fn runs_join()
    ensures joined { (told : Bool) (s mid t : State) (front rest : List Request) (of_front of_rest : List Happened) (replies more : List Reply)
        → Run told s front of_front replies mid → Run told mid rest of_rest more t
        → Run told s (front ++ rest) (of_front ++ of_rest) (replies ++ more) t }
    ensures parted { (told : Bool) (s t : State) (front rest : List Request) (happened : List Happened) (replies : List Reply)
        → Run told s (front ++ rest) happened replies t → RunsBy told s front rest happened replies t }
{}

/// A log that isn't broken may be opened again as its flushed part, over every disk. So over a disk that tells what it holds the replies
/// that are computed where nothing happens and memory suffices are those of a run, also where the log is opened again.
pub fn opening_anew_comes_to_the_cut()
    ensures step { (told : Bool) (s : State) → IsValid s → IsStorable s → s.broken ≡ false
        → ReopenStep told s Fine (replies.Flushed (flushed s)) (cut s) }
    ensures run { (s : State) (requests : List Request) → IsValid s → IsStorable s → All RequestMeets requests
        → Run true s requests (all_fine requests) (replies_of s requests) (state_after s requests) }
{
    space_laws();
    calm_replies_are_a_run();
}
