//! What may be posted to a mail, and what may be fetched from it: first in, first out.

ghost use Rattle.std.specs.Prelude.{[], ◌∷◌};
ghost use Rattle.definition_rows.specs.Notes.{mail, post_nothing, fetch_nothing};
ghost use Rattle.definition_rows.specs.MailPlays.{sends_four, gets_four, sends_nothing, gets_nothing, two_sent, Holds};

/// The parcels come in the order in which they were sent, as far as they are fetched.
pub fn mails_in_order()
    ensures all { Holds two_sent (gets_four 1 2 ∷ gets_nothing 2 ∷ []) }
    ensures first { Holds two_sent (gets_four 1 2 ∷ []) }
    ensures unfetched { Holds two_sent [] }
    ensures unused { Holds [] [] }
    ensures beside_another { Holds (sends_nothing 1 ∷ mail 0 2 7 post_nothing ∷ [])
        (mail 1 0 7 fetch_nothing ∷ gets_nothing 1 ∷ []) }
{}

/// A parcel is fetched once, in its turn, with the number of its post, and as it was sent.
pub fn forged_fetches_are_refused()
    ensures twice { Holds two_sent (gets_four 1 2 ∷ gets_four 1 2 ∷ []) → ⊥ }
    ensures twice_in_turn { Holds two_sent (gets_four 1 2 ∷ gets_four 2 2 ∷ []) → ⊥ }
    ensures second_first { Holds two_sent (gets_nothing 2 ∷ gets_four 1 2 ∷ []) → ⊥ }
    ensures second_alone { Holds two_sent (gets_nothing 2 ∷ []) → ⊥ }
    ensures second_as_first { Holds two_sent (gets_nothing 1 ∷ []) → ⊥ }
    ensures of_other_content { Holds two_sent (gets_four 1 0 ∷ []) → ⊥ }
    ensures number_skipped { Holds two_sent (gets_four 1 2 ∷ gets_nothing 3 ∷ []) → ⊥ }
    ensures nobody_posted { Holds [] (gets_nothing 1 ∷ []) → ⊥ }
    ensures one_too_many { Holds (sends_nothing 1 ∷ []) (gets_nothing 1 ∷ gets_nothing 2 ∷ []) → ⊥ }
{}

/// The posts of a mail are numbered from one on, in the order of the log.
pub fn forged_posts_are_refused()
    ensures number_skipped { Holds (sends_nothing 1 ∷ sends_nothing 3 ∷ []) [] → ⊥ }
    ensures number_twice { Holds (sends_nothing 1 ∷ sends_nothing 1 ∷ []) [] → ⊥ }
    ensures out_of_order { Holds (sends_nothing 2 ∷ sends_nothing 1 ∷ []) [] → ⊥ }
    ensures behind_the_fetches { Holds (sends_nothing 1 ∷ sends_nothing 3 ∷ [])
        (gets_nothing 1 ∷ gets_nothing 3 ∷ []) → ⊥ }
{}
