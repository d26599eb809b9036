ghost use Rattle.std.specs.Prelude.{◌≡◌, [], ◌∷◌, Some, None};
ghost use Rattle.us_peer_wire.specs.declared.message.Verdict.TheVariants.{Commit, Repeat};
ghost use Rattle.us_certify.specs.Certification.{certified, first_slot};
ghost use Rattle.us_certify.specs.Logs.{pages_from};
ghost use Rattle.us_certify.specs.Example.{takes_conflict, adds_conflict, tid, verdicts, two_takes, two_takes_end, not_declared};
ghost use Rattle.us_certify.specs.Example.{submitted_again, two_writes, day, day_end, three_adds, three_adds_end, long, long_end};
ghost use Rattle.us_certify.specs.Example.{long_log, second_pages};

/// The definitions compute: worked logs have the verdicts that were worked by hand.
pub fn worked_verdicts()
    ensures two_takes { verdicts (certified takes_conflict two_takes) ≡ two_takes_end }
    ensures not_declared { verdicts (certified takes_conflict not_declared) ≡ Commit ∷ Commit ∷ [] }
    ensures submitted_again { verdicts (certified takes_conflict submitted_again) ≡ Commit ∷ Repeat ∷ [] }
    ensures two_writes { verdicts (certified [] two_writes) ≡ Commit ∷ Commit ∷ [] }
    ensures day { verdicts (certified takes_conflict day) ≡ day_end }
    ensures three_adds { verdicts (certified adds_conflict three_adds) ≡ three_adds_end }
    ensures long { verdicts (certified takes_conflict long) ≡ long_end }
{}

/// And the longest of them the pages and first slots.
pub fn worked_pages()
    ensures pages { pages_from long_log 2 4 ≡ second_pages }
    ensures none { pages_from long_log 2 9 ≡ [] }
    ensures first { first_slot long_log.decisions (tid 1 1 2) ≡ Some 1 }
    ensures aborted { first_slot long_log.decisions (tid 2 1 1) ≡ Some 2 }
    ensures absent { first_slot long_log.decisions (tid 1 1 3) ≡ None }
{}
