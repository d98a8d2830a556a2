//! What follows from the definitions alone, each law the contract of a function that does nothing.

ghost use Rattle.std.specs.Prelude.{◌≡◌, ◌↔◌, ◌≤◌, ◌<◌, ◌++◌, ◌∷◌, [], ℕ, List, None, Some, false, true};
ghost use Rattle.mrp_turn.specs.Log.{AreFrom, IsLegal, LeadsTo, entries_by, entry};
ghost use Rattle.mrp_item.specs.Inputs.{Inputs, count};
ghost use Rattle.mrp_item.specs.Plan.{IsRanked};
ghost use Rattle.mrp_board.specs.declared.call.BoardCall.{BoardCall};
ghost use Rattle.mrp_board.specs.declared.call.BoardCall.TheVariants as call;
ghost use Rattle.mrp_board.specs.declared.reply.BoardReply.{BoardReply};
ghost use Rattle.mrp_board.specs.declared.reply.BoardReply.TheVariants as reply;
ghost use Rattle.mrp_board.specs.Board.{BoardEntry, BoardLog, FitsInputs, HandsOn, IsLegalBoard, IsUnderWay, MayFollowOnBoard, board_reply, is_at_end, is_finished, is_out, is_ready};
ghost use Rattle.mrp_board.specs.BoardState.{BoardState, board_reply_in, new_board, state_after, state_of};
ghost use Rattle.mrp_board.specs.Object.{Answers, Opens};
ghost use Rattle.mrp_board.specs.Orderly.{IsComplete, IsCourse, IsOrderly, WorkedToEnd};

/// The state of a board and its legal log.
pub fn boards()
    // A board answers by its legal log as it does by the state that the log leaves.
    ensures reply { (s : Inputs) (log : BoardLog) (who : ℕ) (c : BoardCall) → IsLegalBoard s log → board_reply s log who c ≡ board_reply_in (state_of s log) who c }
    // A worker has to come again exactly if items are left, none of them is ready, and nobody gave up.
    ensures waits { (s : Inputs) (log : BoardLog) (who : ℕ) → (board_reply s log who call.Take ≡ None) ↔ ((is_at_end s log ≡ false) × ((item : ℕ) → item < count s → is_ready s log item ≡ false)) }
    // An empty log leaves the state in which a board opens.
    ensures none { (s : Inputs) → state_of s [] ≡ new_board s }
    // One more entry changes the state that a log leaves as it changes any state.
    ensures more { (s : Inputs) (log : BoardLog) (who : ℕ) (c : BoardCall) (r : BoardReply) → board_reply s log who c ≡ Some r → state_of s (log ++ entry who c r ∷ []) ≡ state_after (state_of s log) who c r }
{}

/// Logs of a board under a turn lock: what the lock calls legal is a legal log of the board, and the state
/// that it leads to is the one that the log leaves.
pub fn logs()
    ensures legal { (s : Inputs) (log : BoardLog) → IsLegal (Answers s) (Opens s) log → IsLegalBoard s log }
    ensures left { (s : Inputs) (log : BoardLog) (b : BoardState) → LeadsTo (Answers s) (Opens s) log b → b ≡ state_of s log }
    // And every legal log is one that the lock may have.
    ensures leads { (s : Inputs) (log : BoardLog) → IsLegalBoard s log → LeadsTo (Answers s) (Opens s) log (state_of s log) }
{}

/// In a legal log of a board each item is handed out once, after all its parents were stored, and with their
/// outcomes; its own outcome is stored once, by the worker that took the item.
pub fn boards_hand_on()
    ensures { (s : Inputs) (log : BoardLog) → IsLegalBoard s log → HandsOn s log }
{}

/// A worker has to come again only while an item is under way, which its worker can finish. As in every
/// shop, parents have lesser low-level codes.
pub fn workers_come_again()
    ensures { (s : Inputs) (code : ℕ → ℕ) (log : BoardLog) (who : ℕ) → IsRanked s code → board_reply s log who call.Take ≡ None → (item : ℕ) × (item < count s) × IsUnderWay log item }
{}

/// A board that its workers left at the end, none of them by giving up, is orderly and finished.
pub fn boards_come_to_an_end()
    ensures orderly { (s : Inputs) (log : BoardLog) → WorkedToEnd s log → IsOrderly s log }
    ensures finished { (s : Inputs) (log : BoardLog) → IsLegalBoard s log → WorkedToEnd s log → is_finished s log ≡ true }
{}

/// What holds of each seat's entries holds of each worker's, since a worker without a seat has no entry.
pub fn seats_are_the_workers()
    ensures orderly { (s : Inputs) (seats : ℕ) (log : BoardLog) → AreFrom seats log → ((who : ℕ) → 1 ≤ who → who ≤ seats → IsCourse s who (entries_by who log)) → IsOrderly s log }
    ensures complete { (s : Inputs) (seats : ℕ) (log : BoardLog) → AreFrom seats log → ((who : ℕ) → 1 ≤ who → who ≤ seats → IsComplete s who (entries_by who log)) → (who : ℕ) → IsComplete s who (entries_by who log) }
{}
