//! What helps with a change.

pub const THEN: &str =
    "an if and each elsif go on with then behind the condition; where there is none, write else for elsif";

pub const IS: &str = "write entity e is, architecture a of e is, case s is, type t is";

pub const LOOP: &str = "write for i in 0 to 3 loop, and end loop; behind its statements";

pub const GENERATE: &str =
    "write g : for i in 0 to 3 generate, or g : if n = 1 generate, and end generate; behind its statements";

pub const END_IT: &str =
    "end by it what stands before: where this begins a line, at the end of the line before";

pub const CLOSE: &str = "close the parenthesis that is open here";

pub const OPEN: &str = "open the parenthesis that is closed behind it";

pub const ARROW: &str =
    "write => behind a choice, behind others, and between a formal and its actual";

pub const ASSIGN: &str =
    "assign a signal by <= and a variable by :=, and write := before the value in a declaration";

pub const SIGNAL: &str = "begin the declaration of a signal with that word";

pub const OBJECT: &str =
    "begin the declaration of a signal with signal, and that of a constant with constant";

pub const VARIABLE: &str = "begin the declaration of a variable with that word";

pub const TYPE: &str = "write type t is (a, b, c);";

pub const BEGIN: &str =
    "write begin between the declarations and the statements of an architecture or a process";

pub const COLON: &str = "write : between a name and its type, and behind a label";

pub const COMMA: &str = "part names, associations and selected values by commas";

pub const OF: &str = "write architecture a of e is";

pub const IN: &str = "write for i in 0 to 3";

pub const TO: &str = "write (7 downto 0), or (0 to 7)";

pub const MAP: &str = "write port map (..) and generic map (..)";

pub const SELECT: &str = "write with s select y <= a when '0', b when others;";

pub const CONDITIONAL: &str = "write y <= a when s = '1' else b;";

pub const ALTERNATIVE: &str = "begin each alternative of a case with when";

pub const PROCESS: &str =
    "write process before the sensitivity list, and end process; behind the last statement; leave a second begin out";

pub const IF: &str = "begin an if with if, and each further condition of it with elsif";

pub const CASE: &str = "write case s is, and when before each choice";

pub const COMPONENT: &str =
    "write component k before its generics and ports, and end component; behind them";

pub const PORT: &str =
    "write generic before a list of generics, port before one of ports, and map behind them in an instance";

pub const ENTITY: &str = "write entity e is, and entity work.e in an instance";

pub const DOT: &str = "write use ieee.std_logic_1164.all; and entity work.e";

pub const ALL: &str = "write use ieee.std_logic_1164.all;";

pub const LIBRARY: &str = "write library ieee; and use ieee.std_logic_1164.all;";

pub const END: &str =
    "each if, case, loop, process, generate, component, entity and architecture has an end of its own";

pub const END_UNIT: &str = "end the entity or architecture before the next one begins";

pub const CLOSE_LIST: &str = "close the list of ports or generics, and end it by a `;`";

pub const END_IF: &str =
    "each if has an end if; of its own, and else if begins another one: write elsif";

pub const END_CASE: &str = "each case has an end case; of its own";

pub const END_LOOP: &str = "each loop has an end loop; of its own";

pub const END_PROCESS: &str = "each process has an end process; of its own";

pub const END_GENERATE: &str = "each generate has an end generate; of its own";

pub const END_COMPONENT: &str = "each component has an end component; of its own";

pub const END_STATEMENT: &str = "end each statement and declaration by a `;`";

pub const COMPARE: &str = "two values are compared by =, and by /= where they differ";

pub const IS_PORT: &str = "write entity e is port (a : in std_logic);";

pub const SPARE_END: &str =
    "leave it out where it is one too many; else end first what begins last above it";

pub const LABEL: &str = "write g : for i in 0 to 3 generate, and u : entity work.e port map (..)";

pub const OUTSIDE_IF: &str = "write g : if n = 1 generate, or process (all) begin above the if";

pub const OUTSIDE: &str =
    "end a process by end process; before the next one, an instance, a generate or a selected assignment";
