// The words of forms and of their fields.
ghost use Rattle.grammar.specs.Forms.{table};
ghost use Rattle.grammar.specs.Reader.{place_in, row_in};
ghost use Rattle.runfile.specs.Kinds.{row_of};
ghost use Rattle.std.specs.Prelude.{◌≡◌, option_map};

// The kinds of form.
#[derive(Clone, Copy)]
pub(crate) enum Kind {
    Link,
    Open,
    Close,
    Change,
    Pick,
    Arrive,
    Depart,
}

// The kind whose word this is.
pub(crate) fn kind_of(word: &str) -> Option<Kind>
    ensures { option_map row_of result ≡ row_in table word.now }
{
    match word {
        "link" => Some(Kind::Link),
        "open" => Some(Kind::Open),
        "close" => Some(Kind::Close),
        "change" => Some(Kind::Change),
        "pick" => Some(Kind::Pick),
        "arrive" => Some(Kind::Arrive),
        "depart" => Some(Kind::Depart),
        _ => None,
    }
}

// The slot of the field of a kind that has this word; a depart has none.
pub(crate) fn slot_of(kind: Kind, word: &str) -> Option<usize>
    ensures { result ≡ place_in (row_of kind).names word.now }
{
    match (kind, word) {
        (Kind::Link, "longest") => Some(0),
        (Kind::Open | Kind::Close | Kind::Change | Kind::Pick | Kind::Arrive, "at") => Some(0),
        (Kind::Open | Kind::Close | Kind::Change | Kind::Arrive, "session") => Some(1),
        (Kind::Open | Kind::Change, "interval") => Some(2),
        (Kind::Open, "places") => Some(3),
        (Kind::Pick, "rule") => Some(1),
        (Kind::Arrive, "bytes") => Some(2),
        _ => None,
    }
}
