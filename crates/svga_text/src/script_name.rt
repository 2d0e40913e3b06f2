//! Why bytes are no script, as a line has it.
ghost use Rattle.std.specs.Prelude.{◌≡◌};
ghost use Rattle.svga_text.specs.RaceTexts.{script_cause_name};

use svga_cmd::ScriptCause;

/// The name of a cause.
pub fn name_of_script_cause(cause: ScriptCause) -> &'static str
    ensures { result.now ≡ script_cause_name cause }
{
    match cause {
        ScriptCause::Limit => "Limit",
        ScriptCause::Character => "Character",
        ScriptCause::Space => "Space",
        ScriptCause::Session => "Session",
        ScriptCause::Word => "Word",
        ScriptCause::Number => "Number",
        ScriptCause::Missing => "Missing",
        ScriptCause::Extra => "Extra",
    }
}
