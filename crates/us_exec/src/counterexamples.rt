//! Executions worked by hand, which the definitions accept, and of which they refuse each for the one fact that it lacks.
ghost use Rattle.us_exec.specs.Consistency.{IsSound};
ghost use Rattle.us_exec.specs.Facts.{SoundIsEveryFact, LacksOnly, Numbered, OfCoordinators, LooseOfCoordinators, BegunInOrder, NamedOnce, LooseNamedOnce, NamedApart, CountedOnce, CountedFromOne, CountedWithin, LooseCountedOnce, LooseCountedFromOne, LooseCountedWithin, Linked, LooseLinked, Transitive, LooseTransitive, InSession, LooseInSession, InOrder, Valued, LooseValued, Ordered};
ghost use Rattle.us_exec.specs.Examples.{reads_and_writes, writes_and_reads, writes_and_writes, in_one_session, in_two_sessions, on_other_items, seen_conflict, unseen, without_first, elsewhere, loose_elsewhere, begun_before, one_name, loose_twice, committed_and_loose, twice, none_of, too_many, with_past, with_loose_past, overlooked_link, loose_overlooked_link, overlooked_step, loose_overlooked_step, overlooked_past, loose_overlooked_past, wrong_order, stale_read, loose_stale_read, own_write_overlooked, read_outside_past, first_of_two_writers, last_of_two_writers, unseen_add_removed, unseen_add_kept, seen_add_kept, seen_add_removed};

/// An execution is sound exactly where each fact holds of it.
pub fn sound_is_every_fact()
    ensures { SoundIsEveryFact }
{}

/// Sound executions: pasts by session order and by a link, conflicts that are seen, are on other items or aren't declared,
/// the last of two writers, and elements of a set that an addition keeps or a removal takes.
pub fn sound()
    ensures in_one_session { IsSound reads_and_writes in_one_session }
    ensures in_two_sessions { IsSound reads_and_writes in_two_sessions }
    ensures seen_conflict { IsSound reads_and_writes seen_conflict }
    ensures other_items { IsSound reads_and_writes on_other_items }
    ensures undeclared { IsSound writes_and_writes unseen }
    ensures last_writer { IsSound reads_and_writes last_of_two_writers }
    ensures unseen_add { IsSound reads_and_writes unseen_add_kept }
    ensures seen_add { IsSound reads_and_writes seen_add_removed }
{}

/// Executions that aren't well formed.
pub fn not_well_formed()
    ensures numbers { LacksOnly Numbered reads_and_writes without_first }
    ensures coordinators { LacksOnly OfCoordinators reads_and_writes elsewhere }
    ensures loose_coordinators { LacksOnly LooseOfCoordinators reads_and_writes loose_elsewhere }
    ensures begun { LacksOnly BegunInOrder reads_and_writes begun_before }
    ensures once { LacksOnly NamedOnce reads_and_writes one_name }
    ensures loose_once { LacksOnly LooseNamedOnce reads_and_writes loose_twice }
    ensures apart { LacksOnly NamedApart reads_and_writes committed_and_loose }
    ensures past_twice { LacksOnly CountedOnce reads_and_writes (with_past twice) }
    ensures past_of_none { LacksOnly CountedFromOne reads_and_writes (with_past none_of) }
    ensures past_too_many { LacksOnly CountedWithin reads_and_writes (with_past too_many) }
    ensures loose_past_twice { LacksOnly LooseCountedOnce reads_and_writes (with_loose_past twice) }
    ensures loose_past_of_none { LacksOnly LooseCountedFromOne reads_and_writes (with_loose_past none_of) }
    ensures loose_past_too_many { LacksOnly LooseCountedWithin reads_and_writes (with_loose_past too_many) }
{}

/// Executions that aren't closed.
pub fn not_closed()
    ensures link { LacksOnly Linked reads_and_writes overlooked_link }
    ensures loose_link { LacksOnly LooseLinked reads_and_writes loose_overlooked_link }
    ensures step { LacksOnly Transitive reads_and_writes overlooked_step }
    ensures loose_step { LacksOnly LooseTransitive reads_and_writes loose_overlooked_step }
    ensures session { LacksOnly InSession reads_and_writes overlooked_past }
    ensures loose_session { LacksOnly LooseInSession reads_and_writes loose_overlooked_past }
    ensures order { LacksOnly InOrder reads_and_writes wrong_order }
{}

/// Executions that aren't valued.
pub fn not_valued()
    ensures stale_read { LacksOnly Valued reads_and_writes stale_read }
    ensures loose_stale_read { LacksOnly LooseValued reads_and_writes loose_stale_read }
    ensures own_write { LacksOnly Valued reads_and_writes own_write_overlooked }
    ensures outside_past { LacksOnly Valued reads_and_writes read_outside_past }
    ensures first_writer { LacksOnly Valued reads_and_writes first_of_two_writers }
    ensures unseen_add { LacksOnly Valued reads_and_writes unseen_add_removed }
    ensures seen_add { LacksOnly Valued reads_and_writes seen_add_kept }
{}

/// Executions that aren't ordered, by a pair of classes that is declared either way round.
pub fn not_ordered()
    ensures one_way { LacksOnly Ordered reads_and_writes unseen }
    ensures other_way { LacksOnly Ordered writes_and_reads unseen }
{}
