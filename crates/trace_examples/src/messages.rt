//! What messages take, what their items come to, and what faults make of them.

ghost use Rattle.std.specs.Prelude.{◌≡◌, ◌∷◌, [], codes, map, true, false, Some, None};
ghost use Rattle.resp_value.specs.Data.{array, error, items_of, nil, okay, simple};
ghost use Rattle.resp_value.specs.declared.value.Value.TheVariants.{Nil, ServerError};
ghost use Rattle.redis_error.specs.declared.fault_kind.FaultKind.TheVariants as kind;
ghost use Rattle.redis_error.specs.declared.redis_error.RedisError.TheVariants as error_of;
ghost use Rattle.driver_model.specs.declared.hearing.Hearing.TheVariants as hearing;
ghost use Rattle.driver_model.specs.declared.news.LinkFault.TheVariants as fault;
ghost use Rattle.driver_model.specs.declared.outcome.Shape.TheVariants.{Single, Pipeline, Confirmation};
ghost use Rattle.driver_model.specs.declared.outcome.Verdict.TheVariants as verdict;
ghost use Rattle.driver_model.specs.Hearing.{felt};
ghost use Rattle.driver_model.specs.Shape.{shape_inside, verdict_of};
ghost use Rattle.legal_trace.specs.Ledger.{by_shutdown, by_fault};
ghost use Rattle.legal_trace.specs.Legal.{is_cause};
ghost use Rattle.trace_examples.specs.Messages.{requests, items_of_each, permits_of_each};
ghost use Rattle.trace_examples.specs.Messages.{of_transaction, by_code, queued, aborted, oldest_by};
ghost use Rattle.trace_examples.specs.Messages.{next_by, failed_by, served_by, causes};

/// Does nothing. Its contract: so many items each of these requests takes, and so many of three permits:
/// a transaction one, and a pipeline one for each reply that it keeps. One command of the driver's own
/// takes its item as a single command, and more or none as a pipeline.
pub fn messages_take_these()
    ensures items { items_of_each requests ≡ 1 ∷ 1 ∷ 1 ∷ 2 ∷ 5 ∷ 3 ∷ 4 ∷ 4 ∷ 1 ∷ [] }
    ensures permits { permits_of_each requests ≡ 1 ∷ 1 ∷ 1 ∷ 2 ∷ 3 ∷ 1 ∷ 1 ∷ 2 ∷ 1 ∷ [] }
    ensures inside { map shape_inside (0 ∷ 1 ∷ 2 ∷ 3 ∷ [])
        ≡ Pipeline 0 0 false ∷ Single ∷ Pipeline 0 2 false ∷ Pipeline 0 3 false ∷ [] }
{}

/// Does nothing. Its contract: a server error as the reply to MULTI is that of the transaction, whatever
/// follows; one as the reply to a command aborts it, at its place, also where EXEC is answered; without
/// such an error it is what EXEC is answered with. A command and a pipeline have their items, also where
/// one is an error. A confirmation is whatever isn't an error.
pub fn items_come_to_these()
    ensures multi { of_transaction (error (by_code (codes "ERR")) ∷ queued
        ∷ error (by_code (codes "X")) ∷ aborted ∷ [])
        ≡ verdict.Fault (error_of.Server (by_code (codes "ERR"))) }
    ensures one { of_transaction (okay ∷ queued ∷ error (by_code (codes "X")) ∷ aborted ∷ [])
        ≡ verdict.Fault (error_of.Aborted ((1, by_code (codes "X")) ∷ [])) }
    ensures both { of_transaction (okay ∷ error (by_code (codes "W")) ∷ error (by_code (codes "X")) ∷ okay ∷ [])
        ≡ verdict.Fault (error_of.Aborted ((0, by_code (codes "W")) ∷ (1, by_code (codes "X")) ∷ [])) }
    ensures executed { of_transaction (okay ∷ queued ∷ queued ∷ array (items_of (okay ∷ nil ∷ [])) ∷ [])
        ≡ verdict.Many (array (items_of (okay ∷ nil ∷ [])) ∷ []) }
    ensures refused { of_transaction (okay ∷ queued ∷ queued ∷ aborted ∷ []) ≡ verdict.Many (aborted ∷ []) }
    ensures alone { map (λ item. verdict_of Single (item ∷ [])) (nil ∷ error (by_code (codes "ERR")) ∷ [])
        ≡ verdict.One Nil ∷ verdict.One (ServerError (by_code (codes "ERR"))) ∷ [] }
    ensures kept { verdict_of (Pipeline 0 2 false) (error (by_code (codes "ERR")) ∷ okay ∷ [])
        ≡ verdict.Many (error (by_code (codes "ERR")) ∷ okay ∷ []) }
    ensures skipped { verdict_of (Pipeline 1 1 false) (error (by_code (codes "ERR")) ∷ okay ∷ [])
        ≡ verdict.Many (okay ∷ []) }
    ensures confirmed { map (λ item. verdict_of Confirmation (item ∷ []))
        (okay ∷ nil ∷ error (by_code (codes "NOPERM")) ∷ [])
        ≡ verdict.Done ∷ verdict.Done ∷ verdict.Fault (error_of.Server (by_code (codes "NOPERM"))) ∷ [] }
{}

/// Does nothing. Its contract: where a read or a write fails the oldest message gets that fault, if it is
/// a single command or a subscription call, and each other one the closed connection. The end of the
/// link and a shutdown are the closed connection to all, and on a link of messages each fault is.
pub fn faults_are_these_to_messages()
    ensures reset { oldest_by (by_fault (fault.Io kind.Reset)) ≡ error_of.Io kind.Reset ∷ error_of.Io kind.Reset
        ∷ error_of.Closed ∷ error_of.Closed ∷ [] }
    ensures broken { oldest_by (by_fault (fault.Io kind.BrokenPipe)) ≡ error_of.Io kind.BrokenPipe
        ∷ error_of.Io kind.BrokenPipe ∷ error_of.Closed ∷ error_of.Closed ∷ [] }
    ensures unread { oldest_by (by_fault fault.Parse) ≡ error_of.Parse ∷ error_of.Parse ∷ error_of.Closed
        ∷ error_of.Closed ∷ [] }
    ensures ended { oldest_by (by_fault fault.Ended) ≡ error_of.Closed ∷ error_of.Closed ∷ error_of.Closed
        ∷ error_of.Closed ∷ [] }
    ensures shut { oldest_by by_shutdown ≡ error_of.Closed ∷ error_of.Closed ∷ error_of.Closed
        ∷ error_of.Closed ∷ [] }
    ensures behind { next_by (by_fault (fault.Io kind.Reset)) ≡ error_of.Closed ∷ error_of.Closed
        ∷ error_of.Closed ∷ error_of.Closed ∷ [] }
    ensures felt { map (λ heard. felt heard (fault.Io kind.Reset))
        (hearing.Nothing ∷ hearing.Pushes ∷ hearing.Messages ∷ hearing.Monitor ∷ [])
        ≡ fault.Io kind.Reset ∷ fault.Io kind.Reset ∷ fault.Ended ∷ fault.Io kind.Reset ∷ [] }
{}

/// Does nothing. Its contract: where the opening of its link failed, an error of a request is a cause for
/// the next generation if it is one of input and output; and else if a new link helps. So a time that is
/// over is a cause behind a failed opening alone, and a refused password only of a link that served.
pub fn these_errors_are_causes()
    ensures failed { map (is_cause failed_by) causes ≡ true ∷ true ∷ true ∷ false ∷ true ∷ false ∷ false ∷ [] }
    ensures served { map (is_cause served_by) causes ≡ false ∷ true ∷ true ∷ true ∷ true ∷ false ∷ false ∷ [] }
    ensures unended { map (is_cause None) causes ≡ false ∷ true ∷ true ∷ true ∷ true ∷ false ∷ false ∷ [] }
{}
