// The lines of some transactions, written out.
ghost use Rattle.std.specs.Prelude.{◌≡◌, length};
ghost use Rattle.lines.specs.Build.{lines_of};
ghost use Rattle.lines.specs.Examples.{sampling, SamplingLines, FlowletLines, RateLines, NestedLines};

// How many lines sampling has; with it the lines of sampling, of flowlet switching, of rate control and of an if inside another.
pub fn sampling_lines() -> usize
    ensures count { result ≡ length (lines_of sampling) }
    ensures sampling { SamplingLines }
    ensures flowlets { FlowletLines }
    ensures rates { RateLines }
    ensures nested { NestedLines }
{
    11
}
