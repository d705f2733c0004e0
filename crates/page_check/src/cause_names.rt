ghost use Rattle.std.specs.Prelude.{◌≡◌};
ghost use Rattle.page_check.specs.CauseNames as spec;

use place_core::Code;
use tpl_parse::ParseRefused;

/// The name of the cause for which tokens are no templates.
pub fn parse_name(why: ParseRefused) -> &'static str
    ensures { result.now ≡ spec.parse_name why }
{
    match why {
        ParseRefused::UnexpectedToken => "UnexpectedToken",
        ParseRefused::UnexpectedEnd => "UnexpectedEnd",
        ParseRefused::UnclosedBlock => "UnclosedBlock",
        ParseRefused::ElseTwice => "ElseTwice",
        ParseRefused::UndefinedVariable => "UndefinedVariable",
        ParseRefused::UnknownFunction => "UnknownFunction",
        ParseRefused::BreakOutside => "BreakOutside",
        ParseRefused::DefineNested => "DefineNested",
        ParseRefused::MultipleDefinition => "MultipleDefinition",
        ParseRefused::EmptyPipeline => "EmptyPipeline",
        ParseRefused::TooNested => "TooNested",
    }
}

/// The name of an error of a path.
pub fn code_name(code: Code) -> &'static str
    ensures { result.now ≡ spec.code_name code }
{
    match code {
        Code::AmbigContext => "AmbigContext",
        Code::BadHTML => "BadHTML",
        Code::BranchEnd => "BranchEnd",
        Code::EndContext => "EndContext",
        Code::NoSuchTemplate => "NoSuchTemplate",
        Code::PartialCharset => "PartialCharset",
        Code::PartialEscape => "PartialEscape",
        Code::RangeLoopReentry => "RangeLoopReentry",
        Code::SlashAmbig => "SlashAmbig",
        Code::PredefinedEscaper => "PredefinedEscaper",
        Code::JSTemplate => "JSTemplate",
        Code::SplitToken => "SplitToken",
        Code::BadString => "BadString",
        Code::HtmlInScript => "HtmlInScript",
    }
}
