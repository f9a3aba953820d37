//! What is true of all scripts, and of the first draws of a run. No function here has anything to do: its contract is the law.

ghost use Rattle.std.specs.Prelude.{◌≡◌, ◌∷◌, [], ℕ, List, Result};
ghost use Rattle.edit_script.specs.Draws.{quotients};
ghost use Rattle.edit_script.specs.Scripts.{IsCommand, ReadsAsScript};
ghost use Rattle.edit_script.specs.declared.action.Action.{Action};
ghost use Rattle.edit_script.specs.declared.action.Action.TheVariants as actions;
ghost use Rattle.edit_script.specs.declared.command.Command.{Command};
ghost use Rattle.edit_script.specs.declared.script_kind.ScriptKind.{ScriptKind};
ghost use Rattle.edit_script.specs.declared.script_kind.ScriptKind.TheVariants.{History, Book};

/// A line is one command at most.
pub fn one_action()
    ensures { (kind : ScriptKind) (line : List ℕ) (action other : Action) → IsCommand kind line action → IsCommand kind line other → action ≡ other }
{}

/// Only a script with a history undoes and redoes edits, and only the script of a book turns to another document.
pub fn commands_of_one_kind()
    ensures undo { (kind : ScriptKind) (line : List ℕ) → IsCommand kind line actions.Undo → kind ≡ History }
    ensures redo { (kind : ScriptKind) (line : List ℕ) → IsCommand kind line actions.Redo → kind ≡ History }
    ensures enter { (kind : ScriptKind) (line name : List ℕ) → IsCommand kind line (actions.Enter name) → kind ≡ Book }
{}

/// Each text has a reading: it is a script of some commands, or it has a first bad line.
pub fn some_reading()
    ensures { (kind : ScriptKind) (text : List ℕ) → (reading : Result (List Command) ℕ) × ReadsAsScript kind text reading }
{}

/// A text is a script of one list of commands, or has one first bad line, and not both.
pub fn one_reading()
    ensures { (kind : ScriptKind) (text : List ℕ) (reading other : Result (List Command) ℕ) → ReadsAsScript kind text reading → ReadsAsScript kind text other → reading ≡ other }
{}

/// The first quotients of the seed 1, by which a run can be worked out by hand.
pub fn first_quotients()
    ensures { quotients 8 1 ≡ 16838 ∷ 5758 ∷ 10113 ∷ 17515 ∷ 31051 ∷ 5627 ∷ 23010 ∷ 7419 ∷ [] }
{}
