//! What a service's log has to do with its table.
ghost use Rattle.std.specs.Prelude.{◌≡◌, ◌≢◌, ◌++◌, ℕ, List};
ghost use Rattle.vortex_model_table.specs.Reply.{Replies};
ghost use Rattle.vortex_table_io.specs.Replies.{ok_text};
ghost use Rattle.example_service.specs.Log.{State, start, replayed, whole_lines, AreAccepted};
ghost use Rattle.example_service.specs.Served.{ServiceAnswers, accepted, IsLeftBy};

/// The log of a service leads to its table, whatever lines are served and however they are
/// answered, and a prefix of the log leads to the state of an earlier moment.
///
/// The state before the lines is one that its log leads to: that of a new service, of one that was
/// replayed, or of any other.
pub fn logs_lead_to_their_tables()
    // A line with another answer than `{"ok":true}` changes nothing.
    ensures unchanged { (old : State) (line text : List ℕ) (new : State)
        → ServiceAnswers old line text new → text ≢ ok_text → new ≡ old }

    // The log has the lines that were answered so, in order.
    ensures lines { (old : State) (served texts : List (List ℕ)) (last : State)
        → replayed old.log ≡ old → Replies ServiceAnswers old served texts last
        → whole_lines last.log ≡ whole_lines old.log ++ accepted served texts }

    // The log, replayed, gives the same table and the same log, and each of its lines is accepted.
    ensures same { (old : State) (served texts : List (List ℕ)) (last : State)
        → replayed old.log ≡ old → Replies ServiceAnswers old served texts last
        → replayed last.log ≡ last }
    ensures accepted { (old : State) (served texts : List (List ℕ)) (last : State)
        → replayed old.log ≡ old → AreAccepted start.table (whole_lines old.log)
        → Replies ServiceAnswers old served texts last
        → AreAccepted start.table (whole_lines last.log) }

    // A log that is cut anywhere gives the state that some first of the lines left.
    ensures cut { (old : State) (served texts : List (List ℕ)) (last : State)
        (front back : List ℕ)
        → replayed old.log ≡ old → Replies ServiceAnswers old served texts last
        → (old.log ++ front) ++ back ≡ last.log
        → IsLeftBy old served texts (replayed (old.log ++ front)) last }
{}
