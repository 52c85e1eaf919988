//! What a server sends to who asks with a token, beside the feed that it had sent before.
ghost use Rattle.std.specs.Prelude.{◌≡◌, ◌≤◌, ◌<◌, Option, ℕ, drop, length, position};
ghost use Rattle.feed_probe.specs.Behaviour as behaviour;
ghost use Rattle.feed_probe.specs.First.{IsFirst};

/// What is sent to who asks with a token, beside the feed that came before: the first of these that
/// holds.
#[derive(Clone, Copy, Debug, PartialEq, Eq)]
pub enum Behaviour {
    /// Nothing.
    Nothing,
    /// What stands behind the token's line, as far as both go; where nothing does, lines that begin
    /// with a new one.
    GoesOn,
    /// The feed from its first line on, as far as both go.
    BeginsAgain,
    /// The same from a line on that stands before the end of the token's line.
    SendsAgain,
    /// The same from a line on that stands later.
    LeavesOut,
    /// Something else.
    Differs,
}

/// Whether two texts say the same, as far as both go.
fn agrees(text: &[u8], other: &[u8]) -> bool
    ensures { result ≡ behaviour.agree text.now other.now }
{
    text.starts_with(other) || other.starts_with(text)
}

/// The place of the first line feed.
fn line_feed_in(text: &[u8]) -> Option<usize>
    ensures { result ≡ position behaviour.is_line_feed text.now }
{
    text.iter().position(|byte| *byte == b'\n')
}

/// The first line, with its line feed where it has one.
fn first_line(text: &[u8]) -> &[u8]
    ensures { result.now ≡ behaviour.first_line text.now }
{
    match line_feed_in(text) {
        Some(end) => &text[..end + 1],
        None => text,
    }
}

/// Whether a line begins at a place of a feed.
fn is_start(feed: &[u8], place: usize) -> bool
    requires { place ≤ length feed.now }
    ensures { result ≡ behaviour.is_start feed.now place }
{
    place == 0 || feed[place - 1] == b'\n'
}

/// The first place of a feed at which this line stands; none where it isn't there.
fn place_of(feed: &[u8], line: &[u8]) -> Option<usize>
    ensures { IsFirst (behaviour.stands_at feed.now line.now) (length feed.now) result }
{
    for place in 0..feed.len() {
        if is_start(feed, place) && feed[place..].starts_with(line) {
            return Some(place);
        }
    }
    None
}

/// What an answer is whose first line stands at this place of the feed.
fn from_place(feed: &[u8], token_end: usize, answer: &[u8], place: usize) -> Behaviour
    requires { place ≤ length feed.now }
    ensures { result ≡ behaviour.from_place feed.now token_end answer.now place }
{
    if !agrees(&feed[place..], answer) {
        Behaviour::Differs
    } else if place == 0 {
        Behaviour::BeginsAgain
    } else if place < token_end {
        Behaviour::SendsAgain
    } else {
        Behaviour::LeavesOut
    }
}

/// Whether an answer is what stands behind the token's line.
fn goes_on(feed: &[u8], token_end: usize, answer: &[u8]) -> bool
    requires { token_end ≤ length feed.now }
    ensures { result ≡ behaviour.goes_on feed.now token_end answer.now }
{
    token_end < feed.len() && agrees(&feed[token_end..], answer)
}

/// What the answer is to a token whose line ends at this place of the feed, where the first line of
/// the answer stands in it like this.
fn with_place(feed: &[u8], token_end: usize, answer: &[u8], place: Option<usize>) -> Behaviour
    requires token { token_end ≤ length feed.now }
    requires place { IsFirst (behaviour.stands_at feed.now (behaviour.first_line answer.now)) (length feed.now) place }
    ensures { result ≡ behaviour.behaviour feed.now token_end answer.now place }
{
    if answer.is_empty() {
        Behaviour::Nothing
    } else if goes_on(feed, token_end, answer) {
        Behaviour::GoesOn
    } else {
        match place {
            Some(place) => from_place(feed, token_end, answer, place),
            None if token_end < feed.len() => Behaviour::Differs,
            None => Behaviour::GoesOn,
        }
    }
}

/// What the answer is to a token whose line ends at this place of the feed. Both texts have whole
/// lines, and none of white space alone.
pub fn behaviour_of(feed: &[u8], token_end: usize, answer: &[u8]) -> Behaviour
    requires { token_end ≤ length feed.now }
    ensures { behaviour.Behaves feed.now token_end answer.now result }
{
    let place = place_of(feed, first_line(answer));
    with_place(feed, token_end, answer, place)
}
