// A dedicated log, which has one stream, and which refuses another one.
ghost use Rattle.std.specs.Prelude.{[], ◌∷◌, codes};
ghost use Rattle.clfs_rows.specs.Filled.{dedicated, streams_of};
ghost use Rattle.clfs_rows.specs.Worked.{worked, ◌⟹◌, IsDialogue};

/// The first stream is made; its name is answered with its number from then on, whoever opens it, and every other name is refused. That holds
/// after the log is opened again, too.
pub fn the_stream_of_a_dedicated_log()
    ensures one_stream { IsDialogue (dedicated worked) (
        codes "1 open a" ⟹ codes "1 stream 1"
        ∷ codes "2 open b" ⟹ codes "2 refused 29 Dedicated"
        ∷ codes "2 open a" ⟹ codes "2 stream 1"
        ∷ codes "1 open a" ⟹ codes "1 stream 1"
        ∷ []) }
    ensures opened_again { IsDialogue (dedicated worked) (
        codes "1 open a" ⟹ codes "1 stream 1"
        ∷ codes "1 area 1 960 4" ⟹ codes "1 area 1"
        ∷ codes "1 append 1 aa 0:0:0 0:0:0 flush" ⟹ codes "1 lsn 1:0:0"
        ∷ codes "1 reopen" ⟹ codes "1 flushed 1:200:0"
        ∷ codes "1 open b" ⟹ codes "1 refused 29 Dedicated"
        ∷ codes "2 open a" ⟹ codes "2 stream 1"
        ∷ []) }
    ensures another_log { IsDialogue worked (
        codes "1 open a" ⟹ codes "1 stream 1"
        ∷ codes "2 open b" ⟹ codes "2 stream 2"
        ∷ []) }
{}

/// A wrong name is told first, then that the log is dedicated, then the number of streams.
pub fn refusals_of_opening()
    ensures name_before_dedicated { IsDialogue (dedicated (streams_of 1)) (
        codes "2 open a:b" ⟹ codes "2 refused 16 NameInvalid 1"
        ∷ codes "2 open b" ⟹ codes "2 refused 29 Dedicated"
        ∷ []) }
    ensures dedicated_before_the_limit { IsDialogue (dedicated (streams_of 192)) (
        codes "1 open a:b" ⟹ codes "1 refused 16 NameInvalid 1"
        ∷ codes "1 open b" ⟹ codes "1 refused 29 Dedicated"
        ∷ codes "1 open s192" ⟹ codes "1 stream 192"
        ∷ []) }
{}
