ghost use Rattle.std.specs.Prelude.{◌≡◌};
ghost use Rattle.js_step.specs.ScriptChains.{script_chain, script_hole_with_chain};
ghost use Rattle.js_step.specs.ScriptSanitizers.{script_sanitizer};
ghost use Rattle.js_step.specs.ScriptScans.{script_at_hole};

use place_core::{Chain, Js, JsTails, San, Senses};

/// The place behind a hole. None is refused in a script.
pub fn at_hole(place: Js) -> Js
    ensures { result ≡ script_at_hole place }
{
    match place {
        Js::Code(_, _) => Js::Code(
            Senses {
                re: false,
                div: true,
                brace: false,
            },
            JsTails {
                word: false,
                num: false,
                lt: false,
                slash: false,
                plus: false,
                minus: false,
                hash: false,
            },
        ),
        Js::Dq => Js::Dq,
        Js::Sq => Js::Sq,
        Js::Regexp(_) => Js::Regexp(false),
        Js::Line(senses) => Js::Line(senses),
        Js::Block(senses, star) => Js::Block(senses, star),
    }
}

/// The sanitizer of a value of data: in code it is written as a literal of its own, in a string or a regular expression as a part of
/// it; in a comment it is left out. HTML adds the sanitizer of the value's quotes.
pub fn sanitizer(place: Js) -> San
    ensures { result ≡ script_sanitizer place }
{
    match place {
        Js::Code(_, _) => San::JsValue,
        Js::Dq | Js::Sq => San::JsString,
        Js::Regexp(_) => San::JsRegexp,
        Js::Line(_) | Js::Block(_, _) => San::Drop,
    }
}

/// The place behind a hole, and what is done to a value there. The chain is that of the script alone: HTML adds the sanitizer of the
/// value's quotes. Takes no memory.
pub fn after_hole(place: Js) -> (Js, Chain)
    ensures { result ≡ script_hole_with_chain place }
{
    (at_hole(place), only_sanitizer(sanitizer(place)))
}

// One sanitizer.
fn only_sanitizer(san: San) -> Chain
    ensures { result ≡ script_chain san }
{
    Chain {
        count: 1,
        sans: [san; 3],
    }
}
