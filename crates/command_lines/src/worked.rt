//! Worked lines, and what of them `clap` itself takes and refuses.

ghost use Rattle.std.specs.Prelude.{◌≡◌, None, Some, [], codes, false, true, ◌∷◌};
ghost use Rattle.clap.specs.Faults.{fault_of};
ghost use Rattle.command_lines.specs.Commands.{drill_app, serve_app, session_app};
ghost use Rattle.command_lines.specs.Lines.{agent_by, agent_line_of, has_none, line_of, opening_by};
ghost use Rattle.command_lines.specs.declared.line.Delivery.TheVariants.{Automatic, Manual};
ghost use Rattle.command_lines.specs.declared.line.Line.TheVariants.{Drill, Serve, Session};

/// Lines that are ones, with what they give.
pub fn lines()
    ensures session { line_of (codes "session" ∷ [])
        ≡ Some (Session (opening_by None None Automatic)) }
    ensures store_joined { line_of (codes "session" ∷ codes "--store=x" ∷ [])
        ≡ Some (Session (opening_by None (Some (codes "x")) Automatic)) }
    ensures store_apart { line_of (codes "session" ∷ codes "--store" ∷ codes "x"
        ∷ codes "--delivery=auto" ∷ [])
        ≡ Some (Session (opening_by None (Some (codes "x")) Automatic)) }
    ensures all_apart { line_of (codes "session" ∷ codes "--delivery" ∷ codes "manual"
        ∷ codes "--settings" ∷ codes "s.toml" ∷ codes "--store" ∷ codes "db" ∷ [])
        ≡ Some (Session (opening_by (Some (codes "s.toml")) (Some (codes "db")) Manual)) }
    ensures serve { line_of (codes "serve" ∷ codes "--listen" ∷ codes "x" ∷ codes "--connections"
        ∷ codes "2" ∷ [])
        ≡ Some (Serve (opening_by None None Automatic) (codes "x") 2) }
    ensures serve_joined { line_of (codes "serve" ∷ codes "--connections=1000000"
        ∷ codes "--store=d" ∷ codes "--listen=127.0.0.1:1" ∷ [])
        ≡ Some (Serve (opening_by None (Some (codes "d")) Automatic)
        (codes "127.0.0.1:1") 1000000) }
    ensures drill { line_of (codes "drill" ∷ codes "7" ∷ codes "1" ∷ [])
        ≡ Some (Drill 7 1 false) }
    ensures replies_between { line_of (codes "drill" ∷ codes "7" ∷ codes "--replies" ∷ codes "1"
        ∷ [])
        ≡ Some (Drill 7 1 true) }
    ensures replies_first { line_of (codes "drill" ∷ codes "--replies"
        ∷ codes "18446744073709551615" ∷ codes "10000" ∷ [])
        ≡ Some (Drill 18446744073709551615 10000 true) }
    ensures leading_zeros { line_of (codes "drill" ∷ codes "00000000000000000007" ∷ codes "1" ∷ [])
        ≡ Some (Drill 7 1 false) }
    ensures equals_in_value { line_of (codes "session" ∷ codes "--store=a=b" ∷ [])
        ≡ Some (Session (opening_by None (Some (codes "a=b")) Automatic)) }
    ensures longest_number { line_of (codes "serve" ∷ codes "--listen=x" ∷ codes "--connections"
        ∷ codes "00000000000000000001" ∷ [])
        ≡ Some (Serve (opening_by None None Automatic) (codes "x") 1) }
{}

/// Words that are none.
pub fn no_lines()
    ensures no_words { line_of ([]) ≡ None }
    ensures sessions { line_of (codes "sessions" ∷ []) ≡ None }
    ensures more_words { line_of (codes "session" ∷ codes "x" ∷ []) ≡ None }
    ensures dashes { line_of (codes "session" ∷ codes "--" ∷ []) ≡ None }
    ensures no_value { line_of (codes "session" ∷ codes "--store" ∷ []) ≡ None }
    ensures empty_value { line_of (codes "session" ∷ codes "--store=" ∷ []) ≡ None }
    ensures hyphen_apart { line_of (codes "session" ∷ codes "--store" ∷ codes "-x" ∷ []) ≡ None }
    ensures hyphen_joined { line_of (codes "session" ∷ codes "--store=-x" ∷ []) ≡ None }
    ensures hyphen_alone { line_of (codes "session" ∷ codes "--store" ∷ codes "-" ∷ []) ≡ None }
    ensures store_twice { line_of (codes "session" ∷ codes "--store=x" ∷ codes "--store=y" ∷ [])
        ≡ None }
    ensures store_again { line_of (codes "session" ∷ codes "--store=x" ∷ codes "--store=x" ∷ [])
        ≡ None }
    ensures other_option { line_of (codes "session" ∷ codes "--other" ∷ []) ≡ None }
    ensures help { line_of (codes "session" ∷ codes "--help" ∷ []) ≡ None }
    ensures short_help { line_of (codes "session" ∷ codes "-h" ∷ []) ≡ None }
    ensures version { line_of (codes "session" ∷ codes "--version" ∷ []) ≡ None }
    ensures other_delivery { line_of (codes "session" ∷ codes "--delivery=automatic" ∷ []) ≡ None }
    ensures no_delivery { line_of (codes "session" ∷ codes "--delivery" ∷ []) ≡ None }
    ensures option_for_value { line_of (codes "session" ∷ codes "--settings" ∷ codes "--store"
        ∷ codes "x" ∷ []) ≡ None }
    ensures bare_serve { line_of (codes "serve" ∷ []) ≡ None }
    ensures no_connections { line_of (codes "serve" ∷ codes "--listen" ∷ codes "x" ∷ []) ≡ None }
    ensures no_listen { line_of (codes "serve" ∷ codes "--connections" ∷ codes "2" ∷ []) ≡ None }
    ensures connections_zero { line_of (codes "serve" ∷ codes "--listen" ∷ codes "x"
        ∷ codes "--connections" ∷ codes "0" ∷ []) ≡ None }
    ensures connections_many { line_of (codes "serve" ∷ codes "--listen" ∷ codes "x"
        ∷ codes "--connections" ∷ codes "1000001" ∷ []) ≡ None }
    ensures connections_signed { line_of (codes "serve" ∷ codes "--listen" ∷ codes "x"
        ∷ codes "--connections" ∷ codes "+5" ∷ []) ≡ None }
    ensures serve_dashes { line_of (codes "serve" ∷ codes "--listen" ∷ codes "x"
        ∷ codes "--connections" ∷ codes "2" ∷ codes "--" ∷ []) ≡ None }
    ensures bare_drill { line_of (codes "drill" ∷ []) ≡ None }
    ensures no_size { line_of (codes "drill" ∷ codes "7" ∷ []) ≡ None }
    ensures three_numbers { line_of (codes "drill" ∷ codes "7" ∷ codes "1" ∷ codes "1" ∷ [])
        ≡ None }
    ensures size_zero { line_of (codes "drill" ∷ codes "7" ∷ codes "0" ∷ []) ≡ None }
    ensures size_large { line_of (codes "drill" ∷ codes "7" ∷ codes "10001" ∷ []) ≡ None }
    ensures start_large { line_of (codes "drill" ∷ codes "18446744073709551616" ∷ codes "1" ∷ [])
        ≡ None }
    ensures start_signed { line_of (codes "drill" ∷ codes "+7" ∷ codes "1" ∷ []) ≡ None }
    ensures start_negative { line_of (codes "drill" ∷ codes "-7" ∷ codes "1" ∷ []) ≡ None }
    ensures replies_twice { line_of (codes "drill" ∷ codes "7" ∷ codes "1" ∷ codes "--replies"
        ∷ codes "--replies" ∷ []) ≡ None }
    ensures replies_value { line_of (codes "drill" ∷ codes "--replies=1" ∷ codes "7" ∷ codes "1"
        ∷ []) ≡ None }
    ensures start_long { line_of (codes "drill" ∷ codes "000000000000000000007" ∷ codes "1" ∷ [])
        ≡ None }
    ensures drill_dashes { line_of (codes "drill" ∷ codes "--" ∷ codes "7" ∷ codes "1" ∷ [])
        ≡ None }
    ensures help_command { line_of (codes "help" ∷ []) ≡ None }
    ensures help_first { line_of (codes "--help" ∷ []) ≡ None }
    ensures short_of_store { line_of (codes "session" ∷ codes "--st=x" ∷ []) ≡ None }
    ensures one_hyphen { line_of (codes "session" ∷ codes "-store=x" ∷ []) ≡ None }
    ensures word_behind { line_of (codes "session" ∷ codes "--store=x" ∷ codes "y" ∷ []) ≡ None }
    ensures drill_store { line_of (codes "drill" ∷ codes "7" ∷ codes "1" ∷ codes "--store=x"
        ∷ []) ≡ None }
    ensures empty_number { line_of (codes "drill" ∷ codes "7" ∷ codes "" ∷ []) ≡ None }
{}

/// Words that are refused here and not by `clap`.
pub fn taken_by_clap()
    ensures dashes { has_none (fault_of session_app (codes "--" ∷ [])) ≡ true }
    ensures empty_value { has_none (fault_of session_app (codes "--store=" ∷ [])) ≡ true }
    ensures hyphen_joined { has_none (fault_of session_app (codes "--store=-x" ∷ [])) ≡ true }
    ensures hyphen_alone { has_none (fault_of session_app (codes "--store" ∷ codes "-" ∷ []))
        ≡ true }
    ensures other_delivery { has_none (fault_of session_app (codes "--delivery=automatic" ∷ []))
        ≡ true }
    ensures connections_zero { has_none (fault_of serve_app (codes "--listen" ∷ codes "x"
        ∷ codes "--connections" ∷ codes "0" ∷ [])) ≡ true }
    ensures connections_many { has_none (fault_of serve_app (codes "--listen" ∷ codes "x"
        ∷ codes "--connections" ∷ codes "1000001" ∷ [])) ≡ true }
    ensures connections_signed { has_none (fault_of serve_app (codes "--listen" ∷ codes "x"
        ∷ codes "--connections" ∷ codes "+5" ∷ [])) ≡ true }
    ensures serve_dashes { has_none (fault_of serve_app (codes "--listen" ∷ codes "x"
        ∷ codes "--connections" ∷ codes "2" ∷ codes "--" ∷ [])) ≡ true }
    ensures size_zero { has_none (fault_of drill_app (codes "7" ∷ codes "0" ∷ [])) ≡ true }
    ensures size_large { has_none (fault_of drill_app (codes "7" ∷ codes "10001" ∷ [])) ≡ true }
    ensures start_large { has_none (fault_of drill_app (codes "18446744073709551616" ∷ codes "1"
        ∷ [])) ≡ true }
    ensures start_signed { has_none (fault_of drill_app (codes "+7" ∷ codes "1" ∷ [])) ≡ true }
    ensures start_long { has_none (fault_of drill_app (codes "000000000000000000007" ∷ codes "1"
        ∷ [])) ≡ true }
    ensures drill_dashes { has_none (fault_of drill_app (codes "--" ∷ codes "7" ∷ codes "1"
        ∷ [])) ≡ true }
    ensures empty_number { has_none (fault_of drill_app (codes "7" ∷ codes "" ∷ [])) ≡ true }
{}

/// Words that `clap` refuses.
pub fn refused_by_clap()
    ensures more_words { has_none (fault_of session_app (codes "x" ∷ [])) ≡ false }
    ensures no_value { has_none (fault_of session_app (codes "--store" ∷ [])) ≡ false }
    ensures hyphen_apart { has_none (fault_of session_app (codes "--store" ∷ codes "-x" ∷ []))
        ≡ false }
    ensures store_twice { has_none (fault_of session_app (codes "--store=x" ∷ codes "--store=x"
        ∷ [])) ≡ false }
    ensures short_help { has_none (fault_of session_app (codes "-h" ∷ [])) ≡ false }
    ensures help { has_none (fault_of session_app (codes "--help" ∷ [])) ≡ false }
    ensures short_of_store { has_none (fault_of session_app (codes "--st=x" ∷ [])) ≡ false }
    ensures one_hyphen { has_none (fault_of session_app (codes "-store=x" ∷ [])) ≡ false }
    ensures option_for_value { has_none (fault_of session_app (codes "--settings"
        ∷ codes "--store" ∷ codes "x" ∷ [])) ≡ false }
    ensures word_behind { has_none (fault_of session_app (codes "--store=x" ∷ codes "y" ∷ []))
        ≡ false }
    ensures no_connections { has_none (fault_of serve_app (codes "--listen" ∷ codes "x" ∷ []))
        ≡ false }
    ensures no_listen { has_none (fault_of serve_app (codes "--connections" ∷ codes "2" ∷ []))
        ≡ false }
    ensures no_size { has_none (fault_of drill_app (codes "7" ∷ [])) ≡ false }
    ensures three_numbers { has_none (fault_of drill_app (codes "7" ∷ codes "1" ∷ codes "1"
        ∷ [])) ≡ false }
    ensures start_negative { has_none (fault_of drill_app (codes "-7" ∷ codes "1" ∷ [])) ≡ false }
    ensures replies_twice { has_none (fault_of drill_app (codes "7" ∷ codes "1"
        ∷ codes "--replies" ∷ codes "--replies" ∷ [])) ≡ false }
    ensures replies_value { has_none (fault_of drill_app (codes "7" ∷ codes "1"
        ∷ codes "--replies=1" ∷ [])) ≡ false }
    ensures drill_store { has_none (fault_of drill_app (codes "7" ∷ codes "1" ∷ codes "--store=x"
        ∷ [])) ≡ false }
{}

/// Words of `agent`, and what they give.
pub fn agent_lines()
    ensures joined { agent_line_of (codes "agent" ∷ codes "--connect=a:1" ∷ codes "--host=c1"
        ∷ codes "--rounds=3" ∷ []) ≡ Some (agent_by (codes "a:1") (codes "c1") 3 None) }
    ensures apart { agent_line_of (codes "agent" ∷ codes "--rounds" ∷ codes "3" ∷ codes "--host"
        ∷ codes "c1" ∷ codes "--connect" ∷ codes "a:1" ∷ [])
        ≡ Some (agent_by (codes "a:1") (codes "c1") 3 None) }
    ensures settings { agent_line_of (codes "agent" ∷ codes "--connect=a:1"
        ∷ codes "--settings=F" ∷ codes "--host=c1" ∷ codes "--rounds" ∷ codes "3" ∷ [])
        ≡ Some (agent_by (codes "a:1") (codes "c1") 3 (Some (codes "F"))) }
    ensures no_connect { agent_line_of (codes "agent" ∷ codes "--host=c1" ∷ codes "--rounds=3"
        ∷ []) ≡ None }
    ensures no_host { agent_line_of (codes "agent" ∷ codes "--connect=a:1" ∷ codes "--rounds=3"
        ∷ []) ≡ None }
    ensures no_rounds { agent_line_of (codes "agent" ∷ codes "--connect=a:1" ∷ codes "--host=c1"
        ∷ []) ≡ None }
    ensures no_round { agent_line_of (codes "agent" ∷ codes "--connect=a:1" ∷ codes "--host=c1"
        ∷ codes "--rounds=0" ∷ []) ≡ None }
    ensures many_rounds { agent_line_of (codes "agent" ∷ codes "--connect=a:1"
        ∷ codes "--host=c1" ∷ codes "--rounds=1000001" ∷ []) ≡ None }
    ensures twice { agent_line_of (codes "agent" ∷ codes "--connect=a:1" ∷ codes "--host=c1"
        ∷ codes "--host=c2" ∷ codes "--rounds=3" ∷ []) ≡ None }
    ensures further_word { agent_line_of (codes "agent" ∷ codes "--connect=a:1"
        ∷ codes "--host=c1" ∷ codes "--rounds=3" ∷ codes "x" ∷ []) ≡ None }
    ensures other_command { agent_line_of (codes "session" ∷ codes "--connect=a:1"
        ∷ codes "--host=c1" ∷ codes "--rounds=3" ∷ []) ≡ None }
{}
