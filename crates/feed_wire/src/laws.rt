//! Laws of the definitions.
ghost use Rattle.feed_wire.specs.ChunkLaws.{ReadsArePrefixes, PrefixesAreRead, BodiesAreRead, OthersAreRefused, ReadsOnce};

/// Chunked bodies are read byte by byte exactly.
pub fn chunk_laws()
    ensures prefixes { ReadsArePrefixes }
    ensures read { PrefixesAreRead }
    ensures whole { BodiesAreRead }
    ensures refused { OthersAreRefused }
    ensures once { ReadsOnce }
{}
