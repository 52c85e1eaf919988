//! Laws of the definitions.
ghost use Rattle.feed_http.specs.Laws.{SendsTheRest};

/// A session at a held token is sent the commits after it.
pub fn http_laws()
    ensures rest { SendsTheRest }
{}
