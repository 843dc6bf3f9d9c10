/// What the words ask the program to do: a row of its table of commands, with the files that it names.
#[derive(Clone, Copy, Debug, PartialEq, Eq)]
pub enum Job<'a> {
    /// `verify <file>`: check the plan in the file against its own sheet.
    Verify {
        file: &'a str,
    },
    /// `verify --sheet <sheet> <plan>`: check the plan in the one file for the sheet in the other.
    VerifyForSheet {
        sheet: &'a str,
        plan: &'a str,
    },
    /// `plan <file>`: print a best plan for the sheet in the file.
    Plan {
        file: &'a str,
    },
    /// `plan --table <file>`: print a best plan for the sheet in the file, as tables for a reader.
    PlanTable {
        file: &'a str,
    },
    /// `format <file>`: print the sheet that the lenient text in the file means.
    Format {
        file: &'a str,
    },
    /// `sheet <target> <state> <dump>`: print the sheet of what a table of HAProxy's holds, in which the target, `BACKEND/SERVER`, takes no clients.
    Sheet {
        target: &'a str,
        state: &'a str,
        dump: &'a str,
    },
    /// `commands <backend> <state> <dump> <plan>`: print commands for HAProxy that make the plan in the file so.
    Commands {
        backend: &'a str,
        state: &'a str,
        dump: &'a str,
        plan: &'a str,
    },
    /// `check -f <file>`: check the configuration in the file, up to its first fault.
    Check {
        file: &'a str,
    },
    /// `check --all -f <file>`: check the configuration in the file, and report further faults.
    CheckAll {
        file: &'a str,
    },
    /// `check --haproxy -f <file>`: the same, and say which lines mean something else to HAProxy.
    CheckHaproxy {
        file: &'a str,
    },
    /// `replay <config> <script>`: replay the script at the backend of the configuration.
    Replay {
        config: &'a str,
        script: &'a str,
    },
    /// `run -f <file>`: balance the load of the configuration in the file.
    Run {
        file: &'a str,
    },
    /// `run -f <file> --pins <pins>`: the same, with the pins that the other file has. It is written every so often, as
    /// `--pins-every <every>` says where it is given.
    RunWithPins {
        file: &'a str,
        pins: &'a str,
        every: Option<&'a str>,
    },
    /// `--version`: print the program's version.
    Version,
}
