//! Matching over bytes and over characters.
ghost use Rattle.vortex_stats_match.specs.Laws.{BytesMatchAsCharacters};

/// Over bytes of UTF-8 a pattern matches exactly the strings that it matches over characters.
pub fn bytes_match_as_characters()
    ensures { BytesMatchAsCharacters }
{}
