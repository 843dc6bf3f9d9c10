ghost use Rattle.lb_config_arguments.specs.Faults.{Gives};
ghost use Rattle.lb_config_keywords.specs.SettingLines.{version_in, check_version_at, check_uri_at, http_check_at};

use lb_acl::Version;
use lb_config_arguments::{Fault, LineError, Words, is};
use lb_config_words::Word;

/// The request of a check by HTTP.
#[derive(Debug, Drop)]
pub struct HttpCheck {
    /// The method.
    pub method: Word,
    /// The URI.
    pub uri: Word,
    /// The version.
    pub version: Version,
}

/// The words after `option httpchk`: nothing, a URI, a method and a URI, or these and a version.
#[tactic(auto, unfolding(crate::specs::SettingLines::http_check_at))]
pub fn read_http_check(words: &mut Words) -> Result<HttpCheck, LineError>
    ensures { Gives (λ check. check) result (http_check_at words.old) }
{
    if let Some(first) = words.next_word_or_end()? {
        return read_behind_first(words, first);
    }
    Ok(HttpCheck {
        method: words.copied(b"OPTIONS")?,
        uri: words.copied(b"/")?,
        version: Version::Http10,
    })
}

#[tactic(auto, unfolding(crate::specs::SettingLines::check_uri_at))]
fn read_behind_first(words: &mut Words, first: &[u8]) -> Result<HttpCheck, LineError>
    ensures { Gives (λ check. check) result (check_uri_at first.now words.old) }
{
    if let Some(uri) = words.next_word_or_end()? {
        return read_behind_uri(words, first, uri);
    }
    Ok(HttpCheck {
        method: words.copied(b"OPTIONS")?,
        uri: words.copied(first)?,
        version: Version::Http10,
    })
}

#[tactic(auto, unfolding(crate::specs::SettingLines::check_version_at))]
fn read_behind_uri(words: &mut Words, method: &[u8], uri: &[u8]) -> Result<HttpCheck, LineError>
    ensures { Gives (λ check. check) result (check_version_at method.now uri.now words.old) }
{
    let mut version = Version::Http10;
    if let Some(word) = words.next_word_or_end()? {
        version = read_version(words, word)?;
        words.end()?;
    }
    Ok(HttpCheck {
        method: words.copied(method)?,
        uri: words.copied(uri)?,
        version,
    })
}

#[tactic(auto, unfolding(crate::specs::SettingLines::version_in))]
fn read_version(words: &Words, word: &[u8]) -> Result<Version, LineError>
    ensures { Gives (λ version. version) result (version_in word.now) }
{
    if is(word, b"HTTP/1.0") {
        return Ok(Version::Http10);
    }
    if is(word, b"HTTP/1.1") {
        return Ok(Version::Http11);
    }
    Err(Fault::LeftOut(words.copied(word)?).into())
}
