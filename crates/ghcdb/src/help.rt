// What `--help` tells after the words of the command line.

pub const AFTER_HELP: &str = "Commands of the session, a line each:
  step G [C]        reduce goal G, by clause C
  leap [K]          run on, for K steps at most
  skip G            run what descends from goal G
  goals             list the goals, each with its status
  show X            tell the value of variable X
  records           list the kept steps
  since N           list the kept steps from step N on
  goal N            tell which goal step N took, as written then
  clauses G         tell what each clause says to goal G now
  why N             tell on which steps step N depends
  causes            tell so of all kept steps
  effects N         list the steps that depend on step N
  who X             tell which steps bound variable X
  explain X or G    tell on which steps the value of X, or goal G, rests
  whynot X or G     tell why X is not bound, or why goal G waits
  part G            tell what call G was given, and what it gave
  blame X or G ..   ask which call is wrong: answer with +G right, -G wrong
  undo N            take back step N, on which no other depends
  roll N            take back step N with all that depends on it
  keep X or G       take back all steps on which X, or G, does not rest
  shelf             list what was taken back
  redo N            put step N there again
  arrange N ..      put the kept steps into another lawful order
  ask GOALS         add goals to the run, as a step
  in K TERM, end K  feed or close input stream K
  spy F/N, nospy F/N
                    stop runs at calls of F/N, or no longer
  save [1]          write the whole session, or the kept steps, for --load
  quit              end

Example: ghcdb append.ghc --query 'append([1],[2],R)'

The exit status is 0 at the end of the session or the schedule; 1 where the
program, the query or the history is refused, or no memory is left; 2 where the
command line is refused; 3 where a file cannot be read or a device fails.";
