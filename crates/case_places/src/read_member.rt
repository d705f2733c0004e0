use case_table::CaseStop;
use place_core::Member;

/// The member with a name, as `Debug` writes it.
pub fn member_named(name: &str) -> Result<Member, CaseStop> {
    match name {
        "Whole" => Ok(Member::Whole),
        "Typed" => Ok(Member::Typed),
        "CommentDash" => Ok(Member::CommentDash),
        "BlockLt" => Ok(Member::BlockLt),
        "NameSpot" => Ok(Member::NameSpot),
        "BeforeSpot" => Ok(Member::BeforeSpot),
        "InsideSpot" => Ok(Member::InsideSpot),
        "AfterSpot" => Ok(Member::AfterSpot),
        "UnquotedValue" => Ok(Member::UnquotedValue),
        "UnbegunValue" => Ok(Member::UnbegunValue),
        "PartStart" => Ok(Member::PartStart),
        "PartOpen" => Ok(Member::PartOpen),
        "PartOpenhole" => Ok(Member::PartOpenhole),
        "PartPrequery" => Ok(Member::PartPrequery),
        "PartQuery" => Ok(Member::PartQuery),
        "PartBad" => Ok(Member::PartBad),
        "SenseRe" => Ok(Member::SenseRe),
        "SenseDiv" => Ok(Member::SenseDiv),
        "SenseBrace" => Ok(Member::SenseBrace),
        "JsWord" => Ok(Member::JsWord),
        "JsNum" => Ok(Member::JsNum),
        "JsLt" => Ok(Member::JsLt),
        "JsSlash" => Ok(Member::JsSlash),
        "JsPlus" => Ok(Member::JsPlus),
        "JsMinus" => Ok(Member::JsMinus),
        "JsHash" => Ok(Member::JsHash),
        "RegexpSlash" => Ok(Member::RegexpSlash),
        "JsStar" => Ok(Member::JsStar),
        "CssWord" => Ok(Member::CssWord),
        "CssSlash" => Ok(Member::CssSlash),
        "CssLt" => Ok(Member::CssLt),
        "CssStar" => Ok(Member::CssStar),
        _ => Err(CaseStop::Form),
    }
}
