//! The words of a command line in another order.

ghost use Rattle.std.specs.Prelude.{◌≡◌, ◌∷◌, ℕ, IsPermutation, List, Some};
ghost use Rattle.pd_answers.specs.Terms.{Objects};
ghost use Rattle.pd_answers.specs.Requests.{Request};
ghost use Rattle.pd_answers.specs.Words.{asked};
ghost use Rattle.pd_laws_answers.specs.Words.{AreGroups, Group, words_of_groups, CallEnds};

/// The words behind a tool's name ask the same in any order of their groups: of the flags, of the options, each with its value, and of the
/// operand. So a call ends the same, and what is said of the words in one order holds in each. All words that ask for something are groups.
pub fn reordered_words_ask_the_same()
    ensures asked { (tool : List ℕ) (groups reordered : List Group) → AreGroups groups → IsPermutation groups reordered
        → asked (tool ∷ words_of_groups reordered) ≡ asked (tool ∷ words_of_groups groups) }
    ensures ends { (tool : List ℕ) (groups reordered : List Group) (status : ℕ) (before after : Objects)
        → AreGroups groups → IsPermutation groups reordered
        → CallEnds (tool ∷ words_of_groups reordered) status before after → CallEnds (tool ∷ words_of_groups groups) status before after }
    ensures grouped { (tool : List ℕ) (words : List (List ℕ)) (request : Request) → asked (tool ∷ words) ≡ Some request
        → (groups : List Group) × (AreGroups groups × (words ≡ words_of_groups groups)) }
{}
