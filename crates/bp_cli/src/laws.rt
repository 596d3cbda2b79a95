//! Examples of the definitions of the words. Each function does nothing: its contract is the law.
ghost use Rattle.std.specs.Prelude.{◌≡◌, [], ◌∷◌, codes, false, true, None, Some};
ghost use Rattle.bp_cli.specs.Words.{fault_in, words_or_default};
ghost use Rattle.bp_cli.specs.Words.TraceAt.{from_stdin, at_path};
ghost use Rattle.bp_cli.specs.Asked.{asked_by};
ghost use Rattle.bp_cli.specs.Asked.Asked.{a_run, a_migration, a_sweep, an_explanation};

use crate::words::Order;
use bp_page::Format;
use clap::error::ErrorKind;

/// Some command lines, and the tasks that they name.
pub fn words_by_example()
    ensures none { asked_by (words_or_default []) ≡ Some
        (a_run (record {
          trace = from_stdin;
          page_file = codes "mem:16";
          frames = 2;
          k = 1;
          correlated = 0;
          retained = 1000;
          size = 64;
          format = Format.Plain;
          order = Order.Trace;
          totals = false;
        })) }
    ensures defaults { asked_by (codes "run" ∷ codes "stdin" ∷ codes "mem:16" ∷ [])
        ≡ Some (a_run (record {
          trace = from_stdin;
          page_file = codes "mem:16";
          frames = 8;
          k = 2;
          correlated = 0;
          retained = 1000;
          size = 64;
          format = Format.Plain;
          order = Order.Trace;
          totals = false;
        })) }
    ensures all { asked_by (codes "run" ∷ codes "--k" ∷ codes "16" ∷
        codes "--correlated=4611686018427387904" ∷ codes "t.csv" ∷ codes "--retained" ∷ codes "0" ∷
        codes "--frames" ∷ codes "65536" ∷ codes "mem:" ∷ codes "--page-size=16" ∷
        codes "--totals" ∷ codes "--format" ∷ codes "2" ∷ codes "--order" ∷ codes "free" ∷ [])
        ≡ Some (a_run (record {
          trace = at_path (codes "t.csv");
          page_file = codes "mem:";
          frames = 65536;
          k = 16;
          correlated = 4611686018427387904;
          retained = 0;
          size = 16;
          format = Format.Headed;
          order = Order.Free;
          totals = true;
        })) }
    ensures out_of_range { fault_in (codes "run" ∷ codes "stdin" ∷ codes "mem:16" ∷ codes "--k" ∷
        codes "17" ∷ []) ≡ ErrorKind.ValueValidation ∷ [] }
    ensures unknown { fault_in (codes "run" ∷ codes "stdin" ∷ codes "mem:16" ∷ codes "--seed" ∷
        codes "1" ∷ []) ≡ ErrorKind.UnknownArgument ∷ [] }
    ensures no_order { fault_in (codes "run" ∷ codes "stdin" ∷ codes "mem:16" ∷ codes "--order" ∷
        codes "Free" ∷ []) ≡ ErrorKind.InvalidValue ∷ [] }
    ensures no_version { fault_in (codes "run" ∷ codes "stdin" ∷ codes "mem:16" ∷ codes "--format" ∷
        codes "3" ∷ []) ≡ ErrorKind.ValueValidation ∷ [] }
    ensures migration { asked_by (codes "migrate" ∷ codes "a" ∷ codes "b" ∷ codes "--page-size" ∷
        codes "16" ∷ []) ≡ Some (a_migration (record {
          old = codes "a";
          new = codes "b";
          size = 16;
        })) }
    ensures no_size { fault_in (codes "migrate" ∷ codes "a" ∷ codes "b" ∷
        []) ≡ ErrorKind.MissingRequiredArgument ∷ [] }
    ensures sweep { asked_by (codes "sweep" ∷ codes "stdin" ∷ codes "--frames" ∷ codes "16..100" ∷
        []) ≡ Some (a_sweep (record {
          references = from_stdin;
          frames = 16 ∷ 32 ∷ 64 ∷ 100 ∷ [];
          ks = 1 ∷ 2 ∷ [];
          correlated = 0;
          column = None;
          svg = None;
        })) }
    ensures sweep_all { asked_by (codes "sweep" ∷ codes "--k=1..4" ∷ codes "t.csv" ∷
        codes "--frames" ∷ codes "64,256,65536" ∷ codes "--correlated" ∷ codes "3" ∷
        codes "--column=2" ∷ codes "--svg" ∷ codes "p.svg" ∷ []) ≡ Some (a_sweep (record {
          references = at_path (codes "t.csv");
          frames = 64 ∷ 256 ∷ 65536 ∷ [];
          ks = 1 ∷ 2 ∷ 4 ∷ [];
          correlated = 3;
          column = Some 2;
          svg = Some (codes "p.svg");
        })) }
    ensures empty_part { fault_in (codes "sweep" ∷ codes "stdin" ∷ codes "--frames=64,,256" ∷ [])
        ≡ ErrorKind.InvalidValue ∷ [] }
    ensures backwards { fault_in (codes "sweep" ∷ codes "stdin" ∷ codes "--frames" ∷
        codes "64..32" ∷ []) ≡ ErrorKind.InvalidValue ∷ [] }
    ensures too_great { fault_in (codes "sweep" ∷ codes "stdin" ∷ codes "--frames" ∷ codes "64" ∷
        codes "--k" ∷ codes "2,17" ∷ []) ≡ ErrorKind.InvalidValue ∷ [] }
    ensures draws_over { fault_in (codes "sweep" ∷ codes "t.csv" ∷ codes "--frames" ∷ codes "64" ∷
        codes "--svg" ∷ codes "t.csv" ∷ []) ≡ ErrorKind.InvalidValue ∷ [] }
    ensures no_list { fault_in (codes "sweep" ∷ codes "stdin" ∷ codes "--k" ∷ codes "2" ∷ [])
        ≡ ErrorKind.MissingRequiredArgument ∷ [] }
    ensures explanation { asked_by (codes "explain" ∷ codes "11" ∷ [])
        ≡ Some (an_explanation (codes "no page may leave its frame")) }
    ensures no_number { fault_in (codes "explain" ∷ codes "4" ∷ []) ≡ ErrorKind.InvalidValue ∷ [] }
    ensures version { fault_in (codes "--version" ∷ []) ≡ ErrorKind.DisplayVersion ∷ [] }
    ensures help { fault_in (codes "run" ∷ codes "--help" ∷ []) ≡ ErrorKind.DisplayHelp ∷ [] }
{}
