ghost use Rattle.std.specs.Prelude.{◌≡◌, ◌++◌, [], ◌∷◌, None, Some};
ghost use Rattle.us_ballot_model.specs.declared.log.Role.TheVariants as role;
ghost use Rattle.us_ballot_model.specs.Example.{after, first_part, second_part, third_part, first_messages, second_messages, third_messages, settled};

/// The definitions compute: the worked run sends the messages that were worked by hand and leaves each site's log as worked.
pub fn worked_example()
    ensures first { (after first_part).sent ≡ first_messages }
    ensures second { (after (first_part ++ second_part)).sent ≡ first_messages ++ second_messages }
    ensures third { (after (first_part ++ second_part ++ third_part)).sent ≡ first_messages ++ second_messages ++ third_messages }
    ensures follower { (after (first_part ++ second_part ++ third_part)).at 1 ≡ settled 1 role.Follower }
    ensures leader { (after (first_part ++ second_part ++ third_part)).at 2 ≡
        settled 2 (role.Leader (None ∷ None ∷ Some 1 ∷ None ∷ None ∷ None ∷ None ∷ None ∷ None ∷ [])) }
    ensures other { (after (first_part ++ second_part ++ third_part)).at 3 ≡ settled 3 role.Follower }
{}
