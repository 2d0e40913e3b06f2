//! Worked examples of scripts. The functions do nothing: their contracts are the laws.
ghost use Rattle.std.specs.Prelude.{◌≡◌, ◌++◌, [], ◌∷◌, ℕ, List, Ok, codes, negsuc, pos, None, Some};
ghost use Rattle.std.specs.Result.{result_err};
ghost use Rattle.svga_model.specs.ClientActs as client;
ghost use Rattle.svga_model.specs.ScriptExamples.{asked_behind, asks, flaw, flaw_behind, refused_in, small_session, text_of, told_in};
ghost use Rattle.svga_cmd.specs.declared.fault.Fault.TheVariants.{ScreenId};
ghost use Rattle.svga_cmd.specs.declared.format.Format.TheVariants.{Bgr24};
ghost use Rattle.svga_cmd.specs.declared.page.PageKey.TheVariants.{Frame, Guest};
ghost use Rattle.svga_cmd.specs.declared.script_cause.ScriptCause.TheVariants.{Character, Extra, Limit, Missing, Number, Session, Space, Word};
ghost use Rattle.svga_model.specs.ClientFaults.{PageRange, Refused};
ghost use Rattle.svga_model.specs.Meanings.{Fenced};
ghost use Rattle.svga_model.specs.ScriptBounds.{AreBounded};
ghost use Rattle.svga_model.specs.Scripts.{Script, lines_of, script_of};

/// Lines that stand behind a session's, and what is wrong with them.
#[tactic(auto, unfolding(crate::specs::Scripts::script_of))]
pub fn small_scripts()
    ensures none { result_err (script_of []) ≡ flaw 1 1 Session }
    ensures unended { lines_of (codes "a" ++ 10 ∷ codes "b") ≡ codes "a" ∷ codes "b" ∷ [] }
    ensures ended { lines_of (codes "a" ++ 10 ∷ 10 ∷ []) ≡ codes "a" ∷ [] ∷ [] }
    ensures empty_lines { result_err (script_of (10 ∷ 10 ∷ codes "fence")) ≡ flaw 3 1 Session }
    ensures extra { flaw_behind (codes "fence 3") ≡ flaw 2 7 Extra }
    ensures good { flaw_behind (codes "fence") ≡ None }
    ensures comment { flaw_behind (35 ∷ 9 ∷ []) ≡ None }
    ensures strange { flaw_behind (32 ∷ 32 ∷ 9 ∷ []) ≡ flaw 2 3 Character }
    ensures space_behind { flaw_behind (codes "fence ") ≡ flaw 2 7 Space }
    ensures space_between { flaw_behind (codes "nosuch  word") ≡ flaw 2 8 Space }
    ensures one_space { flaw_behind (codes " ") ≡ flaw 2 1 Space }
    ensures session_again { flaw_behind (codes "session x") ≡ flaw 2 1 Session }
    ensures first_word { flaw_behind (codes "sessions x") ≡ flaw 2 1 Word }
    ensures missing { flaw_behind (codes "screen 0") ≡ flaw 2 9 Missing }
    ensures zeros { flaw_behind (codes "screen 00") ≡ flaw 2 8 Number }
    ensures minus_zero { flaw_behind (codes "screen 0 1 1 0 -0") ≡ flaw 2 16 Number }
    ensures least { flaw_behind (codes "screen 0 1 1 2147483647 -2147483648") ≡ None }
    ensures too_low { flaw_behind (codes "screen 0 1 1 0 -2147483649") ≡ flaw 2 16 Number }
    ensures keys_end { flaw_behind (codes "lend p4294967295+2") ≡ flaw 2 6 Limit }
    ensures keys_word { flaw_behind (codes "lend p4294967296+2") ≡ flaw 2 6 Word }
    ensures two_counts { flaw_behind (codes "lend p1+1+1") ≡ flaw 2 6 Word }
    ensures no_run { flaw_behind (codes "map 1 0") ≡ flaw 2 8 Missing }
    ensures many_pages { flaw_behind (codes "map 1 0 0+1024 7+1024 9") ≡ flaw 2 23 Limit }
    ensures run_word { flaw_behind (codes "map 1 0 0+1024 x 7+4096") ≡ flaw 2 16 Word }
    ensures format { flaw_behind (codes "gmrfb 1 0 0 8") ≡ flaw 2 13 Word }
    ensures hex { flaw_behind (codes "fill p0 0A") ≡ flaw 2 9 Number }
    ensures way { result_err (script_of (codes "session 11404 1 1 1 1 1 Dword")) ≡ flaw 1 25 Word }
    ensures ring { result_err (script_of (codes "session 11405 1 x")) ≡ flaw 1 9 Limit }
{}

/// Words of a line behind a session's that aren't spelled as they should be, or go past a limit.
#[tactic(auto, unfolding(crate::specs::Scripts::script_of))]
pub fn words_of_scripts()
    ensures no_line { flaw_behind (codes "rect 1 2") ≡ flaw 2 1 Word }
    ensures describe { flaw_behind (codes "describe 4294967295 0") ≡ None }
    ensures describe_ends { flaw_behind (codes "describe 1") ≡ flaw 2 11 Missing }
    ensures session_word { flaw_behind (codes "fence session") ≡ flaw 2 7 Extra }
    ensures missing_behind_a_wrong_word { flaw_behind (codes "drop x y") ≡ flaw 2 6 Number }
    ensures largest { flaw_behind (codes "drop 4294967295") ≡ None }
    ensures too_large { flaw_behind (codes "drop 4294967296") ≡ flaw 2 6 Number }
    ensures no_sign { flaw_behind (codes "drop -1") ≡ flaw 2 6 Number }
    ensures largest_signed { flaw_behind (codes "screen 0 1 1 0 2147483648") ≡ flaw 2 16 Number }
    ensures minus_zeros { flaw_behind (codes "screen 0 1 1 0 -01") ≡ flaw 2 16 Number }
    ensures only_minus { flaw_behind (codes "screen 0 1 1 0 -") ≡ flaw 2 16 Number }
    ensures names { flaw_behind (codes "gmrfb frame 0 0 15") ≡ None }
    ensures null_region { flaw_behind (codes "gmrfb 4294967295 0 0 32") ≡ None }
    ensures no_name { flaw_behind (codes "gmrfb all 0 0 32") ≡ flaw 2 7 Number }
    ensures all { flaw_behind (codes "back 0 0 0 0 0 0 all") ≡ None }
    ensures no_screen { flaw_behind (codes "blit 0 0 0 0 0 0 frame") ≡ flaw 2 18 Number }
    ensures no_number { flaw_behind (codes "show p") ≡ flaw 2 6 Word }
    ensures no_key { flaw_behind (codes "show q0") ≡ flaw 2 6 Word }
    ensures no_count { flaw_behind (codes "lend p1+") ≡ flaw 2 6 Word }
    ensures count_of_zero { flaw_behind (codes "take f1+0") ≡ flaw 2 6 Word }
    ensures large_count { flaw_behind (codes "lend p1+4294967295") ≡ None }
    ensures count_too_large { flaw_behind (codes "lend p2+4294967295") ≡ flaw 2 6 Limit }
    ensures larger_count { flaw_behind (codes "lend p1+4294967296") ≡ flaw 2 6 Word }
    ensures last_key { flaw_behind (codes "lend f4294967295+1") ≡ None }
    ensures run_of_zero { flaw_behind (codes "map 1 0 5+0") ≡ flaw 2 9 Word }
    ensures run_ends { flaw_behind (codes "map 1 0 4294967295+2") ≡ flaw 2 9 Limit }
    ensures whole_map { flaw_behind (codes "map 1 0 0+2048") ≡ None }
    ensures large_map { flaw_behind (codes "map 1 0 0+2048 0") ≡ flaw 2 16 Limit }
    ensures all_places { flaw_behind (codes "same 1 0 65536 0") ≡ None }
    ensures too_many_places { flaw_behind (codes "same 1 0 65537 x") ≡ flaw 2 10 Limit }
    ensures no_bytes { flaw_behind (codes "write p0 0 0") ≡ flaw 2 12 Number }
    ensures odd_bytes { flaw_behind (codes "write p0 0 00a") ≡ flaw 2 12 Number }
    ensures two_bytes { flaw_behind (codes "fill p0 0011") ≡ flaw 2 9 Number }
    ensures last_page { flaw_behind (codes "map 1 0 4294967295") ≡ None }
    ensures last_letter { flaw_behind (codes "drop ~") ≡ flaw 2 6 Number }
    ensures carriage_return { flaw_behind (codes "fence" ++ 13 ∷ []) ≡ flaw 2 6 Character }
    ensures below_space { flaw_behind (codes "fence" ++ 31 ∷ []) ≡ flaw 2 6 Character }
    ensures delete { flaw_behind (codes "fence" ++ 127 ∷ []) ≡ flaw 2 6 Character }
    ensures high_byte { flaw_behind (codes "fence" ++ 128 ∷ []) ≡ flaw 2 6 Character }
    ensures zero_in_a_key { flaw_behind (codes "show p00") ≡ flaw 2 6 Word }
    ensures one_key { flaw_behind (codes "show p1+1") ≡ flaw 2 6 Word }
    ensures large_letter { flaw_behind (codes "show P0") ≡ flaw 2 6 Word }
    ensures written_key { flaw_behind (codes "write p0+1 0 00") ≡ flaw 2 7 Word }
    ensures space_before { flaw_behind (codes " # x") ≡ flaw 2 1 Space }
{}

/// First lines of scripts.
#[tactic(auto, unfolding(crate::specs::Scripts::script_of))]
pub fn first_lines_of_scripts()
    ensures other_line { result_err (script_of (codes "fence")) ≡ flaw 1 1 Session }
    ensures behind_a_comment { result_err (script_of (35 ∷ 10 ∷ codes "drop 1 2 3")) ≡ flaw 2 1 Session }
    ensures space_first { result_err (script_of (codes "drop  1")) ≡ flaw 1 6 Space }
    ensures small_ring { result_err (script_of (codes "session 11400")) ≡ flaw 1 9 Limit }
    ensures large_ring { result_err (script_of (codes "session 262148")) ≡ flaw 1 9 Limit }
    ensures no_pages { result_err (script_of (codes "session 262144 0")) ≡ flaw 1 16 Limit }
    ensures wide { result_err (script_of (codes "session 11404 1 4097")) ≡ flaw 1 17 Limit }
    ensures high { result_err (script_of (codes "session 11404 1 4096 2049")) ≡ flaw 1 22 Limit }
    ensures no_budget { result_err (script_of (codes "session 11404 1 1 1 33554433")) ≡ flaw 1 21 Limit }
    ensures no_fence { result_err (script_of (codes "session 11404 1 1 1 1 0")) ≡ flaw 1 23 Limit }
    ensures no_way { result_err (script_of (codes "session 11404 1 1 1 1 1")) ≡ flaw 1 24 Missing }
    ensures largest { result_err
        (script_of (codes "session 262144 16384 4096 2048 33554432 4294967295 dword")) ≡ None }
    ensures space_within { result_err (script_of (codes "session  x")) ≡ flaw 1 9 Space }
    ensures two_ways { result_err (script_of (codes "session 11404 1 1 1 1 1 dword reserve"))
        ≡ flaw 1 31 Extra }
{}

/// What each line asks for.
#[tactic(auto, unfolding(crate::specs::Scripts::script_of))]
pub fn lines_ask()
    ensures screen { asked_behind (codes "screen 1 2 3 -4 5")
        ≡ asks (client.Screen 1 2 3 (negsuc 3) (pos 5)) }
    ensures drop { asked_behind (codes "drop 7") ≡ asks (client.Destroy 7) }
    ensures region { asked_behind (codes "region 1 2") ≡ asks (client.Region 1 2) }
    ensures map { asked_behind (codes "map 1 2 3+4 9")
        ≡ asks (client.Map 1 2 (record { first = 3; count = 4 } ∷ record { first = 9; count = 1 } ∷ [])) }
    ensures same { asked_behind (codes "same 2 0 3 9") ≡ asks (client.Same 2 0 3 9) }
    ensures gmrfb { asked_behind (codes "gmrfb frame 1 2 24")
        ≡ asks (client.SetGmrfb (record { region = 0xFFFFFFFE; offset = 1; pitch = 2; format = Bgr24 })) }
    ensures blit { asked_behind (codes "blit 1 -2 3 -4 5 6 7")
        ≡ asks (client.BlitTo
        (record {
          point = record { x = pos 1; y = negsuc 1 };
          rect = record { left = pos 3; top = negsuc 3; right = pos 5; bottom = pos 6 };
          screen = 7;
        })) }
    ensures back { asked_behind (codes "back 1 2 3 4 5 6 all")
        ≡ asks (client.BlitBack
        (record {
          point = record { x = pos 1; y = pos 2 };
          rect = record { left = pos 3; top = pos 4; right = pos 5; bottom = pos 6 };
          screen = 0xFFFFFFFF;
        })) }
    ensures update { asked_behind (codes "update 1 2 3 4") ≡ asks (client.Update 1 2 3 4) }
    ensures fence { asked_behind (codes "fence") ≡ asks client.NextFence }
    ensures write { asked_behind (codes "write f1 2 0a10ff")
        ≡ asks (client.Write (Frame 1) 2 (10 ∷ 16 ∷ 255 ∷ [])) }
    ensures fill { asked_behind (codes "fill p3 9f") ≡ asks (client.Fill (Guest 3) 159) }
    ensures lend { asked_behind (codes "lend p3+2") ≡ asks (client.Lend (Guest 3) 2) }
    ensures take { asked_behind (codes "take f4") ≡ asks (client.Take (Frame 4) 1) }
    ensures show { asked_behind (codes "show p5") ≡ asks (client.Show (Guest 5)) }
    ensures describe { asked_behind (codes "describe 6 8") ≡ asks (client.Describe 6 8) }
{}

/// The acts of a script are within their bounds.
pub fn bounded_scripts()
    ensures { (bytes : List ℕ) (s : Script) → script_of bytes ≡ Ok s → AreBounded s.acts }
{}

/// What small scripts mean.
#[tactic(auto, unfolding(crate::specs::Scripts::script_of,
// What is read is then done, and each command judged.
crate::specs::Scripts::meaning_of, crate::specs::Faults::fault_of))]
pub fn small_meanings()
    ensures fences { told_in (small_session ∷ codes "fence" ∷ codes "fence" ∷ [])
        ≡ Some (Fenced 4294967295 ∷ Fenced 1 ∷ []) }
    ensures no_page { refused_in (small_session ∷ codes "fence" ∷ codes "show p1" ∷ [])
        ≡ Some (Some (record { line = 3; fault = PageRange (Guest 1) })) }
    ensures too_far { refused_in (small_session ∷ [] ∷ codes "write p0 4096 00" ∷ [])
        ≡ Some (Some (record { line = 3; fault = PageRange (Guest 0) })) }
    ensures no_screen { refused_in (small_session ∷ codes "drop 16" ∷ [])
        ≡ Some (Some (record { line = 2; fault = Refused ScreenId })) }
{}
