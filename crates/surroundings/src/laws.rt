//! Laws of the evaluation of documents as what is handed from node to node. The functions do nothing: each contract is a
//! law, proved of every document.

ghost use Rattle.surroundings.specs.Laws.{AreItsInputs, EachNodeFits, EvaluatorIsSound, OfEachDocument, SaysTheEvaluation, SharedSubtreesAreToldByTheirInputs, TellsWhatIsAsked, TellsWhoAsks, TestsDecide, TestsDecideWhatIsHanded};

/// The test of what is handed is true of the same alone.
pub fn tests_tell_what_is_handed()
    ensures some { TestsDecide }
    ensures options { TestsDecideWhatIsHanded }
{}

/// What is kept of an element tells what it was handed and what was handed on behind its children; a text hands on
/// what it is handed.
pub fn styled_evaluator_is_sound()
    ensures sound { EvaluatorIsSound }
{}

/// What is said of the elements of a document is its evaluation.
pub fn evaluator_says_the_evaluation()
    ensures said { OfEachDocument SaysTheEvaluation }
{}

/// The elements that ask for starts are told by what is kept of them, and so are these starts.
pub fn evaluator_tells_who_asks()
    ensures asks { TellsWhoAsks }
    ensures starts { TellsWhatIsAsked }
{}

/// Each node of a document with distinct keys can be opened and closed with what it is handed.
pub fn documents_fit()
    ensures fit { OfEachDocument EachNodeFits }
{}

/// What the elements of a document are handed are their inputs.
pub fn handed_are_inputs()
    ensures inputs { OfEachDocument AreItsInputs }
{}

/// A subtree that two documents share is evaluated to the same in both, where its root has the same inputs in both.
pub fn shared_subtrees_are_told_by_their_inputs()
    ensures shared { SharedSubtreesAreToldByTheirInputs }
{}
