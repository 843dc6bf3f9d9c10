ghost use Rattle.std.specs.Prelude.{◌≡◌};
ghost use Rattle.lb_config_keywords.specs.Sections.{is_one_of, is_left_out_section};
ghost use Rattle.lb_config_keywords.specs.Keywords.{ignored_process_words, ignored_other_words, begins_ignored, is_ignored, left_out_rules, left_out_others, is_left_out};

use lb_config_arguments::is;

/// Whether a line that begins with the word, which is no keyword, is ignored.
#[tactic(auto, unfolding(crate::specs::Keywords::is_ignored))]
pub fn is_ignored(word: &[u8]) -> bool
    ensures { result ≡ is_ignored word.now }
{
    is_ignored_process_word(word) || is_ignored_other_word(word) || begins_ignored(word)
}

fn is_ignored_process_word(word: &[u8]) -> bool
    ensures { result ≡ is_one_of ignored_process_words word.now }
{
    is(word, b"chroot")
        || is(word, b"user")
        || is(word, b"group")
        || is(word, b"daemon")
        || is(word, b"nbthread")
        || is(word, b"pidfile")
        || is(word, b"ca-base")
        || is(word, b"crt-base")
        || is(word, b"uid")
}

fn is_ignored_other_word(word: &[u8]) -> bool
    ensures { result ≡ is_one_of ignored_other_words word.now }
{
    is(word, b"gid")
        || is(word, b"log")
        || is(word, b"log-tag")
        || is(word, b"log-format")
        || is(word, b"maxconn")
        || is(word, b"retries")
        || is(word, b"errorfile")
}

fn begins_ignored(word: &[u8]) -> bool
    ensures { result ≡ begins_ignored word.now }
{
    word.starts_with(b"ssl-default-") || word.starts_with(b"tune.")
}

/// Whether a line that begins with the word is left out.
#[tactic(auto, unfolding(crate::specs::Keywords::is_left_out))]
pub fn is_left_out(word: &[u8]) -> bool
    ensures { result ≡ is_left_out word.now }
{
    is_left_out_rule(word) || is_left_out_other(word)
}

fn is_left_out_rule(word: &[u8]) -> bool
    ensures { result ≡ is_one_of left_out_rules word.now }
{
    is(word, b"http-request")
        || is(word, b"http-response")
        || is(word, b"http-check")
        || is(word, b"tcp-request")
        || is(word, b"tcp-response")
        || is(word, b"redirect")
}

fn is_left_out_other(word: &[u8]) -> bool
    ensures { result ≡ is_one_of left_out_others word.now }
{
    is(word, b"cookie")
        || is(word, b"force-persist")
        || is(word, b"ignore-persist")
        || is(word, b"server-template")
        || is(word, b"lua-load")
        || is(word, b"no")
}

/// Whether the word begins a section that is left out.
#[tactic(auto, unfolding(crate::specs::Sections::is_left_out_section))]
pub fn is_left_out_section(word: &[u8]) -> bool
    ensures { result ≡ is_left_out_section word.now }
{
    is(word, b"peers")
        || is(word, b"resolvers")
        || is(word, b"userlist")
        || is(word, b"cache")
        || is(word, b"mailers")
        || is(word, b"program")
        || is(word, b"ring")
        || is(word, b"http-errors")
        || is(word, b"fcgi-app")
}
