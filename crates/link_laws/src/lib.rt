//! The laws of a link: what is told of it is legal, and what it settles is owed; what a cut of its
//! bytes and a cancel change; in which order messages start, and what holds them back.
#![tactic(auto)]

ghost use Rattle.std.specs.Prelude.{◌≡◌, ◌+◌, ◌<◌, ℕ, Bool, true, false, List, [], ◌∷◌, ◌++◌, length};
ghost use Rattle.driver_model.specs.declared.action.Owner.{Owner};
ghost use Rattle.driver_model.specs.declared.hearing.Hearing.{Hearing};
ghost use Rattle.driver_model.specs.declared.news.LinkFault.{LinkFault};
ghost use Rattle.driver_model.specs.Hearing.{hears_messages, is_watching};
ghost use Rattle.link_core.specs.declared.message.Queued.{Queued};
ghost use Rattle.link_core.specs.Link.{LinkState, Starting, is_full};
ghost use Rattle.link_core.specs.Link.{holds_back, enqueued, begun, started_one, started_all};
ghost use Rattle.link_core.specs.Link.{offered_of, wrote_of};
ghost use Rattle.link_core.specs.Link.{cancelled, piece_read, closed_all, faulted};
ghost use Rattle.link_core.specs.Waiting.{without};
ghost use Rattle.legal_trace.specs.Ledger.{ledger, LinkLegal};
ghost use Rattle.link_laws.specs.Alike.{SameLink};
ghost use Rattle.link_laws.specs.Places.{places, starts, line_up};
ghost use Rattle.link_laws.specs.Runs.{Operation, run, AreOwed};
ghost use Rattle.link_laws.specs.Pieces.{pieces_read, EndsAlike};
ghost use Rattle.link_laws.specs.Laws.{KeepsAlike, StartsAlike, SettlesAlike};
ghost use Rattle.link_laws.specs.Laws.{ReadsAlike, ReadsItemsAlike};
ghost use Rattle.link_laws.specs.Laws.{LackWhatWasNotDealt, OneLine, EndSettlesAll};
ghost use Rattle.link_laws.specs.Laws.{SetupIsHeard, MonitorIsHeard};
ghost use Rattle.link_laws.specs.Laws.{NoticeStandsBehind, EachNoticeIsHeard, NothingElseIsHeard};
ghost use Rattle.link_laws.specs.Laws.{WithdrawalIsNotTold, WithdrawalSparesOthers};

/// Does nothing. Its contract: a cancel of a message that has left the queue changes nothing of its
/// link but that the message's own verdict is not wanted.
pub fn a_cancel_changes_one_verdict()
    ensures { (id : ℕ) (s : LinkState) → without s.queue id ≡ s.queue
        → SameLink id s (cancelled s id) }
{}

/// Does nothing. Its contract: links that are alike but for one message's own verdict stay so
/// through each call. The same messages start in the same order, each item goes to the same
/// message, all other verdicts are the same, and the same is told, in order. Bytes before a link is
/// set up are so where the message that sets it up isn't the one; and for all else but what is told
/// also where it is, unless messages are heard or the server is put into monitor mode.
pub fn calls_keep_links_alike()
    ensures enqueue { (q : Queued) → KeepsAlike (λ s. enqueued s q) }
    ensures offer { KeepsAlike offered_of }
    ensures wrote { (n : ℕ) → KeepsAlike (λ s. wrote_of s n) }
    ensures cancel { (other : ℕ) → KeepsAlike (λ s. cancelled s other) }
    ensures begin { (q : Queued) → KeepsAlike (λ s. begun s q) }
    ensures start { StartsAlike started_all }
    ensures bytes { (h : Hearing) (ready : Bool) (piece : List ℕ)
        → ReadsAlike (λ s. piece_read h ready s piece) ready }
    ensures items { (h : Hearing) (ready : Bool) (piece : List ℕ)
        → hears_messages h ≡ false → is_watching h ≡ false
        → ReadsItemsAlike (λ s. piece_read h ready s piece) }
    ensures close { SettlesAlike closed_all }
    ensures fault { (f : LinkFault) → SettlesAlike (λ d. faulted d f) }
{}

/// Does nothing. Its contract: a new message has the last place of the queue, and messages start
/// from its front, in order, while all others keep their places. One that starts at once stands
/// behind those that started, and before all that wait.
pub fn messages_start_in_the_order_of_their_places()
    ensures last { (s : LinkState) (q : Queued)
        → places (enqueued s q).queue ≡ places s.queue ++ q.id ∷ [] }
    ensures front { (s : Starting) → line_up (started_all s) ≡ line_up s }
    ensures first { (s : Starting) (q : Queued)
        → line_up (started_one s q) ≡ starts s.out ++ q.id ∷ places s.link.queue }
{}

/// Does nothing. Its contract: whatever is done with a link, what is told of it is legal.
pub fn every_run_of_a_link_is_legal()
    ensures { (name : ℕ → Owner) (h : Hearing) (size boundary : ℕ) (ops : List Operation)
        → LinkLegal (run name h size boundary ops).lines }
{}

/// Does nothing. Its contract: whatever is done with a link, each started message that it settles
/// comes to what its ledger owes it by its number, and each that waits when the link ends to what
/// the ledger owes such a one. And until the link ends, its started messages lack as many items as
/// the starts take and were not dealt.
pub fn what_a_link_settles_is_owed()
    ensures settled { (name : ℕ → Owner) (h : Hearing) (size boundary : ℕ) (ops : List Operation)
        → AreOwed name (ledger (run name h size boundary ops).lines) (run name h size boundary ops) }
    ensures lacks { (name : ℕ → Owner) (h : Hearing) (size boundary : ℕ) (ops : List Operation)
        → LackWhatWasNotDealt (run name h size boundary ops) }
{}

/// Does nothing. Its contract: the messages that were settled, and then those whose verdict is
/// wanted, stand in one line. A message joins it at its end, by its place in the queue, or, where
/// it starts at once, before all that wait for their start, and no operation but a withdrawal moves
/// anyone out of it. What ends a link settles all that it has, in order.
pub fn an_end_answers_each_message_once()
    ensures line { OneLine }
    ensures end { EndSettlesAll }
{}

/// Does nothing. Its contract: what is told of a value stands behind as many messages as the values
/// before it, in the same bytes, settled, whatever is heard and whether the link is set up or not.
pub fn a_notice_stands_behind_what_came_before_it()
    ensures { NoticeStandsBehind }
{}

/// Does nothing. Its contract: what a link that is set up tells with bytes is what its ledger hears
/// then, in order, and each notice stands among the messages that the bytes settle where it came:
/// behind those that were full before it, and before the others. Nothing else lets the ledger hear
/// anything.
pub fn a_notice_is_heard_where_it_came()
    ensures heard { EachNoticeIsHeard }
    ensures only { NothingElseIsHeard }
{}

/// Does nothing. Its contract: of a link that isn't set up. What it tells stands behind the answer
/// to its greeting, the setup or MONITOR. Where the setup is answered well with these bytes, and
/// always of MONITOR, it is what the ledger hears, each notice where it came, and a value ends the
/// one where it ends the other; else the ledger hears nothing.
pub fn what_comes_behind_a_greeting_is_heard()
    ensures setup { SetupIsHeard }
    ensures monitor { MonitorIsHeard }
{}

/// Does nothing. Its contract: one withdrawal more, of a message that has left the queue, changes
/// nothing of what is told of a link, and nothing of what it settles but that message's own
/// verdict.
pub fn a_cancel_changes_no_other_verdict()
    ensures lines { WithdrawalIsNotTold }
    ensures settled { WithdrawalSparesOthers }
{}

/// Does nothing. Its contract: bytes that come in two pieces are read as if they had come in one.
/// Where the first ends the link, by a value or by bytes that begin none, so does the whole, with the
/// same settled messages, and the same is told.
pub fn a_cut_changes_nothing()
    ensures sound { (h : Hearing) (ready : Bool) (s : LinkState) (p q : List ℕ)
        → (piece_read h ready s p).link.broken ≡ false → (piece_read h ready s p).strange ≡ false
        → pieces_read h ready s p q ≡ piece_read h ready s (p ++ q) }
    ensures ended { (h : Hearing) (ready : Bool) (s : LinkState) (p q : List ℕ)
        → (piece_read h ready s p).strange ≡ true
        → EndsAlike (piece_read h ready s p) (piece_read h ready s (p ++ q)) }
    ensures broken { (h : Hearing) (ready : Bool) (s : LinkState) (p q : List ℕ)
        → (piece_read h ready s p).link.broken ≡ true
        → (piece_read h ready s (p ++ q)).link.broken ≡ true }
    ensures settled { (h : Hearing) (ready : Bool) (s : LinkState) (p q : List ℕ)
        → (piece_read h ready s p).link.broken ≡ true
        → EndsAlike (piece_read h ready s p) (piece_read h ready s (p ++ q)) }
{}

/// Does nothing. Its contract: messages are held back from the boundary on, and not one byte below
/// it; never where nothing is unwritten, nor by a boundary above the unwritten bytes.
pub fn a_link_is_held_back_at_its_boundary()
    ensures below { (s : LinkState) → length s.outbox.unwritten + 1 ≡ s.boundary
        → holds_back s ≡ false }
    ensures at { (s : LinkState) → 0 < length s.outbox.unwritten
        → length s.outbox.unwritten ≡ s.boundary → holds_back s ≡ true }
    ensures above { (s : LinkState) → length s.outbox.unwritten ≡ s.boundary + 1
        → holds_back s ≡ true }
    ensures empty { (s : LinkState) → length s.outbox.unwritten ≡ 0
        → holds_back s ≡ false }
    ensures beyond { (s : LinkState) → length s.outbox.unwritten < s.boundary
        → holds_back s ≡ false }
{}

/// Does nothing. Its contract: a queue is full at its size, and not one message below it.
pub fn a_queue_is_full_at_its_size()
    ensures below { (s : LinkState) → length s.queue + 1 ≡ s.size → is_full s ≡ false }
    ensures at { (s : LinkState) → length s.queue ≡ s.size → is_full s ≡ true }
{}
