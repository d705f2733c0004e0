use place_core::Member;

/// What shows a refusal: a member, every path of which is refused; two members, any two paths of which are refused together; or that
/// two paths met apart in the beginning of a URL, any two of which that are in it are refused together.
#[derive(Clone, Copy, Debug, Drop, PartialEq, Eq)]
pub enum Evidence {
    One(Member),
    Two(Member, Member),
    Apart,
}
