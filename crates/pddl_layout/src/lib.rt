//! Laws of the layout of PDDL texts: byte offsets, the case of letters, comments and the order between sections do not
//! matter for the task that two texts spell, and the first pass with a fault decides the result.
#![tactic(auto)]

mod laws;

pub use laws::{
    action_faults_decide, declaration_faults_decide, earlier_passes_decide,
    letters_case_does_not_matter, neighbours_may_be_exchanged, object_faults_decide,
    places_do_not_matter, same_tokens_have_one_shape, same_tokens_spell_one_task, sections_commute,
    texts_have_the_tokens_of_their_trees,
};
