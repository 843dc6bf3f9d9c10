ghost use Rattle.set_cookie.specs.Laws.{StaysFinished, TaughtStays, TeachesNothingYet};

/// What the first bytes of an answer teach is what the whole answer teaches, once they aren't unfinished. Until then they teach
/// nothing.
pub fn what_is_taught_stays()
    ensures stays { TaughtStays }
    ensures finished { StaysFinished }
    ensures nothing_yet { TeachesNothingYet }
{}
