//! The edit of a line.

ghost use Rattle.std.specs.Prelude.{IfErr, IfOk};
ghost use Rattle.marker_session.specs.Machinery.{IsOnlyEdit, IsNoEdit};

use crate::line_fault::LineFault;
use edit_script::action::Action;
use edit_script::command::Command;
use plain_types::edit::Edit;

/// The edit of these commands, where there is one command and it is an edit.
pub(crate) fn only_edit(commands: &[Command]) -> Result<&Edit, LineFault>
    ensures edit { IfOk result (λ edit. IsOnlyEdit commands.now edit.now) }
    ensures fault { IfErr result (IsNoEdit commands.now) }
{
    let [command] = commands else {
        return Err(LineFault::BadLine);
    };
    match &command.action {
        Action::Change(edit) => Ok(edit),
        Action::Show => Err(LineFault::NotAnEdit),
        _ => Err(LineFault::BadLine),
    }
}
