ghost use Rattle.std.specs.Prelude.{◌≡◌, None};
ghost use Rattle.place_core.specs.place.JoinLaws.{AreInConflict, join_shows, name_shows, tags_show};
ghost use Rattle.place_core.specs.place.Places.{IsValid, joined, joined_tags};

use crate::joining::join_tags;
use crate::member::Member;
use crate::place::Place;
use crate::tag_of::TagOf;
use crate::tag_place::TagPlace;

/// Two members, one of each place, that show that the places do not join: no valid places below them that have these join. Where
/// the places join the answer says nothing. Does not allocate.
pub fn join_evidence(a: Place, b: Place) -> (Member, Member)
    requires one { IsValid a }
    requires other { IsValid b }
    ensures { joined a b ≡ None → AreInConflict a b result.0 result.1 }
{
    shown(a, b)
}

fn shown(a: Place, b: Place) -> (Member, Member)
    ensures { result ≡ join_shows a b }
{
    match (a, b) {
        (Place::Tag(x), Place::Tag(y)) => in_tags(join_tags(x.tag, y.tag), x, y),
        _ => (Member::Whole, Member::Whole),
    }
}

// In tags that join the kinds clash, and else the tags.
fn in_tags(tag: Option<TagOf>, x: TagPlace, y: TagPlace) -> (Member, Member)
    ensures { result ≡ tags_show tag x y }
{
    match tag {
        Some(_) => (in_name(x), in_name(y)),
        None => (Member::Whole, Member::Whole),
    }
}

fn in_name(place: TagPlace) -> Member
    ensures { result ≡ name_shows place }
{
    if place.spots.inside {
        Member::InsideSpot
    } else {
        Member::AfterSpot
    }
}
